//! The words that mean something.
ghost use Rattle.std.specs.Prelude.{◌≡◌};
ghost use Rattle.reo_grammar.specs.Key as spec;

/// A word that means something in its place, or any other.
#[derive(Clone, Copy, Debug, PartialEq, Eq)]
pub enum Key {
    In,
    Out,
    Sync,
    Lossy,
    Drain,
    Fifo,
    Full,
    Filter,
    Transform,
    Component,
    Put,
    Get,
    Or,
    And,
    Not,
    X,
    Mod,
    Is,
    Int,
    Text,
    Len,
    Starts,
    Neg,
    Map,
    Other,
}

/// What a word means.
#[tactic(auto, unfolding(crate::specs::Key::key_of))]
pub fn key_of(word: &[u8]) -> Key
    ensures { result ≡ spec.key_of word.now }
{
    if is(word, "put") {
        return Key::Put;
    }
    if is(word, "get") {
        return Key::Get;
    }
    circuit_key_of(word)
}

fn circuit_key_of(word: &[u8]) -> Key
    ensures { result ≡ spec.circuit_key_of word.now }
{
    if is(word, "in") {
        return Key::In;
    }
    if is(word, "out") {
        return Key::Out;
    }
    if is(word, "sync") {
        return Key::Sync;
    }
    if is(word, "lossy") {
        return Key::Lossy;
    }
    if is(word, "drain") {
        return Key::Drain;
    }
    if is(word, "fifo") {
        return Key::Fifo;
    }
    if is(word, "full") {
        return Key::Full;
    }
    if is(word, "filter") {
        return Key::Filter;
    }
    if is(word, "transform") {
        return Key::Transform;
    }
    if is(word, "component") {
        return Key::Component;
    }
    guard_key_of(word)
}

fn guard_key_of(word: &[u8]) -> Key
    ensures { result ≡ spec.guard_key_of word.now }
{
    if is(word, "x") {
        return Key::X;
    }
    if is(word, "and") {
        return Key::And;
    }
    if is(word, "or") {
        return Key::Or;
    }
    if is(word, "not") {
        return Key::Not;
    }
    if is(word, "mod") {
        return Key::Mod;
    }
    if is(word, "is") {
        return Key::Is;
    }
    if is(word, "int") {
        return Key::Int;
    }
    if is(word, "text") {
        return Key::Text;
    }
    if is(word, "len") {
        return Key::Len;
    }
    if is(word, "starts") {
        return Key::Starts;
    }
    function_key_of(word)
}

fn function_key_of(word: &[u8]) -> Key
    ensures { result ≡ spec.function_key_of word.now }
{
    if is(word, "neg") {
        return Key::Neg;
    }
    if is(word, "map") {
        return Key::Map;
    }
    Key::Other
}

fn is(word: &[u8], key: &str) -> bool
    ensures { result ≡ spec.is word.now key.now }
{
    word == key.as_bytes()
}
