//! The lines that are written where there is no report.
ghost use Rattle.std.specs.Prelude.{◌≡◌, IfOk};
ghost use Rattle.std.specs.String.{string_bytes};
ghost use Rattle.reo_tool.specs.FaultText.{of_line, syntax_text, text_text, region_text, check_text, session_text};

use reo_document::TextRefusal;
use reo_net::CheckRefusal;
use reo_session::SessionRefusal;
use reo_value::Lexicon;
use std::alloc::{AllocError, Global};

/// How the program is called.
pub const USAGE: &[u8] =
    b"reo: usage: reo run [--plain] [--limit N] | show | plan | make STAGES ITEMS\n";

pub const READ_FAILED: &[u8] = b"reo: read failed\n";

pub const TOO_LONG: &[u8] = b"reo: input is longer than 1048576 bytes\n";

pub const OUT_OF_MEMORY: &[u8] = b"reo: out of memory\n";

// What is told of a line.
fn of_line(alloc: Global, line: u32, told: &str) -> Result<String, AllocError>
    ensures { IfOk result (λ text. string_bytes text ≡ of_line line told.now) }
{
    format!(in alloc; "reo: line {line}: {told}\n")
}

/// Why bytes are no document.
pub fn text_text(alloc: Global, refusal: TextRefusal) -> Result<String, AllocError>
    ensures { IfOk result (λ text. string_bytes text ≡ text_text refusal) }
{
    match refusal {
        TextRefusal::NotUtf8(byte) => format!(in alloc; "reo: byte {byte}: not UTF-8\n"),
        TextRefusal::Syntax(line, column) => syntax_text(alloc, line, column),
        TextRefusal::LineLarge(line) => of_line(alloc, line, "more than 512 tokens"),
        TextRefusal::NumberRange(line) => of_line(alloc, line, "number out of range"),
        TextRefusal::TextLong(line) => of_line(alloc, line, "text over 255 bytes"),
        TextRefusal::TooManyComponents(line) => of_line(alloc, line, "more than 128 components"),
        TextRefusal::ComponentTwice(line) => of_line(alloc, line, "component named twice"),
        TextRefusal::UnknownPort(line) => of_line(alloc, line, "unknown port"),
        TextRefusal::WrongWay(line) => of_line(alloc, line, "wrong way"),
        TextRefusal::PortShared(line) => of_line(alloc, line, "port shared"),
        TextRefusal::TooManyOps(line) => of_line(alloc, line, "more than 100000 operations"),
        TextRefusal::NoMemory => String::from_str(alloc, "reo: out of memory\n"),
    }
}

// Where a line goes wrong.
fn syntax_text(alloc: Global, line: u32, column: u32) -> Result<String, AllocError>
    ensures { IfOk result (λ text. string_bytes text ≡ syntax_text line column) }
{
    format!(in alloc; "reo: line {line}, column {column}: syntax\n")
}

// A region, by its number from 1, that is too large.
fn region_text(alloc: Global, region: u64, count: u32) -> Result<String, AllocError>
    ensures { IfOk result (λ text. string_bytes text ≡ region_text region count) }
{
    format!(in alloc; "reo: region {region} is too large: {count}\n")
}

// A circuit that is refused, with the names of its nodes.
fn check_text(alloc: Global, nodes: &Lexicon, refusal: CheckRefusal) -> Result<String, AllocError>
    ensures { IfOk result (λ text. string_bytes text ≡ check_text nodes.now refusal) }
{
    match refusal {
        CheckRefusal::TooManyChannels(count) => format!(in alloc;
            "reo: {count} channels, 512 allowed\n"
        ),
        CheckRefusal::TooManyPorts(count) => format!(in alloc; "reo: {count} ports, 128 allowed\n"),
        CheckRefusal::PortTwice(node) => {
            let name = nodes.text_or_empty(node);
            format!(in alloc; "reo: node {name}: two ports\n")
        }
        CheckRefusal::MixedPort(node) => {
            let name = nodes.text_or_empty(node);
            format!(in alloc; "reo: node {name}: mixed node as port\n")
        }
        CheckRefusal::SyncLoop(node) => {
            let name = nodes.text_or_empty(node);
            format!(in alloc; "reo: node {name}: synchronous loop\n")
        }
        CheckRefusal::NoMemory => String::from_str(alloc, "reo: out of memory\n"),
    }
}

/// Why a document can not be run, with the names of its nodes.
pub fn session_text(
    alloc: Global,
    nodes: &Lexicon,
    refusal: SessionRefusal,
) -> Result<String, AllocError>
    ensures { IfOk result (λ text. string_bytes text ≡ session_text nodes.now refusal) }
{
    match refusal {
        SessionRefusal::Check(refusal) => check_text(alloc, nodes, refusal),
        SessionRefusal::TooLarge(region, count) => region_text(alloc, u64::from(region) + 1, count),
        SessionRefusal::NoMemory => String::from_str(alloc, "reo: out of memory\n"),
    }
}
