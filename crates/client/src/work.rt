// How far some work is.
use notify::Progress;
use plain::Text;

/// How far some work is, as the client is to be told.
#[derive(Drop)]
pub struct WorkProgress {
    pub title: Text,
    pub state: Progress,
    pub message: Option<Text>,
    /// Whole hundredths. Work that ends has none.
    pub percentage: Option<u32>,
    /// The token under which the client may cancel the work, where it may.
    pub cancel_token: Option<Text>,
}
