ghost use Rattle.std.specs.Prelude.{◌≡◌, bytes_eq};

use lsp_frame::Notification;

/// Whether a notification has this method.
pub fn notification_is(notification: &Notification, method: &str) -> bool
    ensures { result ≡ bytes_eq notification.now.method method.now }
{
    notification.method.as_str() == method
}
