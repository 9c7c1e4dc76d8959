//! Guards, with brackets only where they are needed.
ghost use Rattle.std.specs.Prelude.{◌≡◌, ◌++◌, codes, decimal};
ghost use Rattle.reo_value.specs.declared.value.Value.TheVariants.{Sym as AnySym};
ghost use Rattle.reo_trace.specs.ReportText.{value_text};
ghost use Rattle.reo_print.specs.Buffer.{Adds};
ghost use Rattle.reo_print.specs.Canonical.{cmp_text, wants_as_or, wants_as_and, opening, closing, guard_text};

use reo_guard::{Cmp, Guard};
use reo_trace::{push_bytes, push_decimal, push_value};
use reo_value::{Lexicon, Value};
use std::alloc::AllocError;

/// Where a guard stands: as a whole or left of `or`; right of `or` or left of `and`; right of `and` or behind `not`.
#[derive(Clone, Copy, Debug, PartialEq, Eq)]
pub(crate) enum Level {
    AsGuard,
    AsTerm,
    AsFactor,
}

impl Level {
    fn wants_as_or(self) -> bool
        ensures { result ≡ wants_as_or self }
    {
        match self {
            Level::AsGuard => false,
            Level::AsTerm => true,
            Level::AsFactor => true,
        }
    }

    fn wants_as_and(self) -> bool
        ensures { result ≡ wants_as_and self }
    {
        match self {
            Level::AsGuard => false,
            Level::AsTerm => false,
            Level::AsFactor => true,
        }
    }
}

fn push_opening(buffer: &mut Vec<u8>, wanted: bool) -> Result<(), AllocError>
    ensures { Adds buffer.old buffer.new result (opening wanted) }
{
    if wanted {
        push_bytes(buffer, b"(")
    } else {
        push_bytes(buffer, b"")
    }
}

fn push_closing(buffer: &mut Vec<u8>, wanted: bool) -> Result<(), AllocError>
    ensures { Adds buffer.old buffer.new result (closing wanted) }
{
    if wanted {
        push_bytes(buffer, b")")
    } else {
        push_bytes(buffer, b"")
    }
}

fn push_cmp(buffer: &mut Vec<u8>, cmp: Cmp) -> Result<(), AllocError>
    ensures { Adds buffer.old buffer.new result (cmp_text cmp) }
{
    match cmp {
        Cmp::Eq => push_bytes(buffer, b"="),
        Cmp::Ne => push_bytes(buffer, b"!="),
        Cmp::Lt => push_bytes(buffer, b"<"),
        Cmp::Le => push_bytes(buffer, b"<="),
        Cmp::Gt => push_bytes(buffer, b">"),
        Cmp::Ge => push_bytes(buffer, b">="),
    }
}

fn push_compare(
    buffer: &mut Vec<u8>,
    texts: &Lexicon,
    cmp: Cmp,
    constant: Value,
) -> Result<(), AllocError>
    ensures { Adds buffer.old buffer.new result (codes "x " ++ cmp_text cmp ++ codes " " ++ value_text texts.now constant) }
{
    push_bytes(buffer, b"x ")?;
    push_cmp(buffer, cmp)?;
    push_bytes(buffer, b" ")?;
    push_value(buffer, texts, constant)
}

fn push_mod(buffer: &mut Vec<u8>, divisor: u32, remainder: u32) -> Result<(), AllocError>
    ensures { Adds buffer.old buffer.new result (codes "x mod " ++ decimal divisor ++ codes " = " ++ decimal remainder) }
{
    push_bytes(buffer, b"x mod ")?;
    push_decimal(buffer, u64::from(divisor))?;
    push_bytes(buffer, b" = ")?;
    push_decimal(buffer, u64::from(remainder))
}

fn push_most(buffer: &mut Vec<u8>, most: u32) -> Result<(), AllocError>
    ensures { Adds buffer.old buffer.new result (codes "len <= " ++ decimal most) }
{
    push_bytes(buffer, b"len <= ")?;
    push_decimal(buffer, u64::from(most))
}

fn push_front(buffer: &mut Vec<u8>, texts: &Lexicon, front: u32) -> Result<(), AllocError>
    ensures { Adds buffer.old buffer.new result (codes "starts " ++ value_text texts.now (AnySym front)) }
{
    push_bytes(buffer, b"starts ")?;
    push_value(buffer, texts, Value::Sym(front))
}

pub(crate) fn push_guard(
    buffer: &mut Vec<u8>,
    texts: &Lexicon,
    guard: &Guard,
    level: Level,
) -> Result<(), AllocError>
    ensures { Adds buffer.old buffer.new result (guard_text texts.now guard.now level) }
{
    match guard {
        Guard::Compare(cmp, constant) => push_compare(buffer, texts, *cmp, *constant),
        Guard::Mod(divisor, remainder) => push_mod(buffer, *divisor, *remainder),
        Guard::IsInt => push_bytes(buffer, b"is int"),
        Guard::IsText => push_bytes(buffer, b"is text"),
        Guard::LenAtMost(most) => push_most(buffer, *most),
        Guard::Starts(front) => push_front(buffer, texts, *front),
        Guard::And(left, right) => {
            push_opening(buffer, level.wants_as_and())?;
            push_guard(buffer, texts, left.get(), Level::AsTerm)?;
            push_bytes(buffer, b" and ")?;
            push_guard(buffer, texts, right.get(), Level::AsFactor)?;
            push_closing(buffer, level.wants_as_and())
        }
        Guard::Or(left, right) => {
            push_opening(buffer, level.wants_as_or())?;
            push_guard(buffer, texts, left.get(), Level::AsGuard)?;
            push_bytes(buffer, b" or ")?;
            push_guard(buffer, texts, right.get(), Level::AsTerm)?;
            push_closing(buffer, level.wants_as_or())
        }
        Guard::Not(inner) => {
            push_bytes(buffer, b"not ")?;
            push_guard(buffer, texts, inner.get(), Level::AsFactor)
        }
    }
}
