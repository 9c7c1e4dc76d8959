//! What the words of a call ask for.
ghost use Rattle.std.specs.Prelude.{◌≡◌, ◌≤◌, ◌&&◌, nat_lt, Some, None, if◌then◌else◌, map, IfSome};
ghost use Rattle.std.specs.List.{list_all};
ghost use Rattle.std.specs.Str.{bytes_eq};
ghost use Rattle.std.specs.Str.Parse.{digits_value};
ghost use Rattle.reo_tool.specs.Words.{is_digit, is_numeral, limit_from, limit_of, one_word, two_words, flags, four_words, command_of, most_steps, HasRoom};

/// The most steps of a run.
const MOST_STEPS: u64 = 100_000;

/// What a call is asked to do.
#[derive(Clone, Copy, Debug, PartialEq, Eq)]
pub enum Command {
    /// Runs the document on one thread, with at most so many steps.
    Run(u64),
    /// Writes the document's canonical text.
    Show,
    /// Tells the regions of its circuit.
    Plan,
}

/// What the words ask for, if it is something.
pub(crate) fn command_of(words: &[&str]) -> Option<Command>
    ensures command { result ≡ command_of (map (λ word. word.now) words.now) }
    ensures room { IfSome result HasRoom }
{
    match words {
        [command] => one_word(command),
        [command, flag] => two_words(command, flag),
        [command, first, second, third] => four_words(command, first, second, third),
        _ => None,
    }
}

fn is(word: &str, key: &str) -> bool
    ensures { result ≡ bytes_eq word.now key.now }
{
    word.as_bytes() == key.as_bytes()
}

fn one_word(command: &str) -> Option<Command>
    ensures command { result ≡ one_word command.now }
    ensures room { IfSome result HasRoom }
{
    if is(command, "show") {
        Some(Command::Show)
    } else if is(command, "plan") {
        Some(Command::Plan)
    } else {
        None
    }
}

fn two_words(command: &str, flag: &str) -> Option<Command>
    ensures command { result ≡ two_words command.now flag.now }
    ensures room { IfSome result HasRoom }
{
    if is(command, "run") && is(flag, "--plain") {
        Some(Command::Run(MOST_STEPS))
    } else {
        None
    }
}

fn four_words(command: &str, first: &str, second: &str, third: &str) -> Option<Command>
    ensures command { result ≡ four_words command.now first.now second.now third.now }
    ensures room { IfSome result HasRoom }
{
    if is(command, "run") {
        flags(first, second, third)
    } else {
        None
    }
}

// `--plain` and `--limit N`, in any order.
fn flags(first: &str, second: &str, third: &str) -> Option<Command>
    ensures command { result ≡ flags first.now second.now third.now }
    ensures room { IfSome result HasRoom }
{
    if is(first, "--plain") && is(second, "--limit") {
        return limit_of(third).map(Command::Run);
    }
    if is(first, "--limit") && is(third, "--plain") {
        return limit_of(second).map(Command::Run);
    }
    None
}

// The limit that a word spells.
fn limit_of(word: &str) -> Option<u64>
    ensures limit { result ≡ limit_of word.now }
    ensures room { IfSome result (λ limit. (1 ≤ limit) × (limit ≤ most_steps)) }
{
    let limit = numeral(word)?;
    if limit >= 1 && limit <= MOST_STEPS {
        Some(limit)
    } else {
        None
    }
}

// The natural number of 64 bits that a word spells.
fn numeral(word: &str) -> Option<u64>
    ensures { result ≡ (if is_numeral word.now && nat_lt (digits_value 10 word.now) 18446744073709551616 then Some (digits_value 10 word.now) else None) }
{
    if !is_numeral(word.as_bytes()) {
        return None;
    }
    word.parse().ok()
}

fn is_numeral(word: &[u8]) -> bool
    ensures { result ≡ is_numeral word.now }
{
    match word.first() {
        Some(first) => has_digits(word) && (*first > b'0' || word.len() == 1),
        None => false,
    }
}

fn has_digits(word: &[u8]) -> bool
    ensures { result ≡ list_all is_digit word.now }
{
    word.iter().all(|byte| byte.is_ascii_digit())
}
