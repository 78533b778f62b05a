// The name at a place of a text.
ghost use Rattle.std.specs.Prelude.{◌≡◌, ◌≤◌, ◌+◌, ◌-◌, length, option_copied};
ghost use Rattle.std.specs.List.{list_all, prefix_len, suffix_len};
ghost use Rattle.small_analysis.specs.Names.{is_word_byte, run_start, run_end, is_name, name_at};

fn is_word_byte(byte: u8) -> bool
    ensures { result ≡ is_word_byte byte }
{
    byte.is_ascii_alphanumeric() || byte == b'_'
}

/// How many bytes are looked at at once.
const BLOCK: usize = 32;

/// Whether all are word bytes. It has no early exit, so that they are looked at side by side.
#[tactic(auto, using(std::proofs::lemmas::List::Folds::list_all_more))]
fn are_word_bytes(block: &[u8]) -> bool
    ensures { result ≡ list_all is_word_byte block.now }
{
    let mut all = true;
    for byte in block {
        all &= is_word_byte(*byte);
    }
    all
}

/// What stands before the whole blocks of word bytes at the end.
#[tactic(auto, using(crate::proofs::BlockLemmas::suffix_len_before))]
fn before_blocks(front: &[u8]) -> &[u8]
    ensures value { suffix_len is_word_byte front.now ≡ length front.now - length result.now + suffix_len is_word_byte result.now }
    ensures within { length result.now ≤ length front.now }
{
    let mut remaining = front;
    while let Some((head, block)) = remaining.split_last_chunk::<BLOCK>() {
        if !are_word_bytes(block) {
            return remaining;
        }
        remaining = head;
    }
    remaining
}

/// How many word bytes there are at the end, byte by byte.
fn bytes_before(front: &[u8]) -> usize
    ensures value { result ≡ suffix_len is_word_byte front.now }
    ensures within { result ≤ length front.now }
{
    front
        .iter()
        .rev()
        .take_while(|byte| is_word_byte(**byte))
        .count()
}

/// How many word bytes there are at the end.
fn words_before(front: &[u8]) -> usize
    ensures value { result ≡ suffix_len is_word_byte front.now }
    ensures within { result ≤ length front.now }
{
    let remaining = before_blocks(front);
    front.len() - remaining.len() + bytes_before(remaining)
}

/// What stands after the whole blocks of word bytes at the front.
fn after_blocks(rest: &[u8]) -> &[u8]
    ensures value { prefix_len is_word_byte rest.now ≡ length rest.now - length result.now + prefix_len is_word_byte result.now }
    ensures within { length result.now ≤ length rest.now }
{
    let mut remaining = rest;
    while let Some((block, tail)) = remaining.split_first_chunk::<BLOCK>() {
        if !are_word_bytes(block) {
            return remaining;
        }
        remaining = tail;
    }
    remaining
}

/// How many word bytes there are from the front on, byte by byte.
fn bytes_from(rest: &[u8]) -> usize
    ensures value { result ≡ prefix_len is_word_byte rest.now }
    ensures within { result ≤ length rest.now }
{
    rest.iter().take_while(|byte| is_word_byte(**byte)).count()
}

/// How many word bytes there are from the front on.
fn words_from(rest: &[u8]) -> usize
    ensures value { result ≡ prefix_len is_word_byte rest.now }
    ensures within { result ≤ length rest.now }
{
    let remaining = after_blocks(rest);
    rest.len() - remaining.len() + bytes_from(remaining)
}

/// Where the word bytes begin that end at a place.
pub(crate) fn run_start(text: &[u8], offset: usize) -> usize
    requires { offset ≤ length text.now }
    ensures value { result ≡ run_start text.now offset }
    ensures within { result ≤ offset }
{
    offset - words_before(&text[..offset])
}

/// Where the word bytes end that begin at a place.
pub(crate) fn run_end(text: &[u8], offset: usize) -> usize
    requires { offset ≤ length text.now }
    ensures value { result ≡ run_end text.now offset }
    ensures after { offset ≤ result }
    ensures within { result ≤ length text.now }
{
    offset + words_from(&text[offset..])
}

/// Whether a run is a name.
fn is_name(run: &[u8]) -> bool
    ensures { result ≡ is_name run.now }
{
    match run {
        [] => false,
        [first, ..] => !first.is_ascii_digit(),
    }
}

/// The name that holds a place or ends at it.
pub(crate) fn name_at(text: &str, offset: usize) -> Option<&str>
    requires { offset ≤ length text.now }
    ensures { option_copied result ≡ name_at text.now offset }
{
    let bytes = text.as_bytes();
    let start = run_start(bytes, offset);
    let end = run_end(bytes, offset);
    if is_name(&bytes[start..end]) {
        Some(&text[start..end])
    } else {
        None
    }
}
