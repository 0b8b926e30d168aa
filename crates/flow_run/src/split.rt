//! Cuts one text into a network and its records.
ghost use Rattle.std.specs.Prelude.{◌≡◌, ◌<◌, ◌↔◌, length, drop, IsTrue, MatchOption};
ghost use Rattle.flow_run.specs.Split.{IsCut, IsFirstCut, IsUncut, IsSplit};

/// What stands before the first line that is exactly `%%`, and what stands after that line and its line feed.
///
/// Where there is no such line, all stands before it.
pub fn split_input(text: &[u8]) -> (&[u8], &[u8])
    ensures { IsSplit text.now result.0.now result.1.now }
{
    match cut_place(text) {
        Some(at) => {
            let (before, line) = text.split_at(at);
            (before, after_line(line))
        }
        None => (text, &[]),
    }
}

/// What stands after a line of two bytes and its line feed.
fn after_line(text: &[u8]) -> &[u8]
    ensures { result.now ≡ drop 3 text.now }
{
    match text {
        [_, _, _, after @ ..] => after,
        _ => &[],
    }
}

/// Where the first line that is exactly `%%` begins.
fn cut_place(text: &[u8]) -> Option<usize>
    ensures { MatchOption result (IsUncut text.now) (IsFirstCut text.now) }
{
    for at in 0..text.len() {
        if is_cut(text, at) {
            return Some(at);
        }
    }
    None
}

/// Whether a line begins here that is exactly `%%`.
fn is_cut(text: &[u8], at: usize) -> bool
    requires { at < length text.now }
    ensures { IsTrue result ↔ IsCut text.now at }
{
    let begins_line = at == 0 || text[at - 1] == b'\n';
    begins_line && matches!(&text[at..], [b'%', b'%'] | [b'%', b'%', b'\n', ..])
}
