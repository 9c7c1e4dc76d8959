//! The lines of a text, one after the other.
ghost use Rattle.std.specs.Prelude.{◌≡◌, ◌==◌, ◌+◌, ◌<◌, ◌≤◌, ◌∷◌, length, position, IsUtf8, IfSome};
ghost use Rattle.std.specs.Option.{option_copied};
ghost use Rattle.reo_document.specs.Lines.{lines_of, lines_behind, without_end};

const LINE_FEED: u8 = b'\n';

const CARRIAGE_RETURN: u8 = b'\r';

/// The first line, without its end, and what follows it; nothing follows the last line.
pub(crate) fn next_line(bytes: &[u8]) -> (&[u8], Option<&[u8]>)
    requires { IsUtf8 bytes.now }
    ensures exact { lines_of bytes.now ≡ result.0.now ∷ lines_behind (option_copied result.1) }
    ensures fewer { IfSome result.1 (λ rest. length result.0.now + length rest.now < length bytes.now) }
    ensures short { length result.0.now ≤ length bytes.now }
    ensures utf8 { IsUtf8 result.0.now }
    ensures rest { IfSome result.1 (λ rest. IsUtf8 rest.now) }
{
    match line_feed_in(bytes) {
        Some(at) => (without_end(&bytes[..at]), Some(&bytes[at + 1..])),
        None => (without_end(bytes), None),
    }
}

fn line_feed_in(bytes: &[u8]) -> Option<usize>
    ensures place { result ≡ position (λ byte. byte == LINE_FEED) bytes.now }
    ensures within { IfSome result (λ at. at < length bytes.now) }
{
    bytes.iter().position(|byte| *byte == LINE_FEED)
}

fn without_end(line: &[u8]) -> &[u8]
    ensures exact { result.now ≡ without_end line.now }
    ensures short { length result.now ≤ length line.now }
{
    match line.last() {
        Some(byte) => {
            if *byte == CARRIAGE_RETURN {
                &line[..line.len() - 1]
            } else {
                line
            }
        }
        None => line,
    }
}
