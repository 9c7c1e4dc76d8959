//! The first names of a line with their values, written behind one another into one room.
ghost use Rattle.std.specs.Prelude.{◌≡◌, ◌+◌, ◌*◌, ◌≤◌, length, take, flat_map};
ghost use Rattle.reo_trace.specs.Buffer.{HasWritten};
ghost use Rattle.reo_trace.specs.Fronts.{AreFronts, AreQuotes};
ghost use Rattle.reo_trace.specs.ReportText.{pair_text};

use crate::parts::{Parts, short_part};
use crate::quotes::short_datum;
use crate::room::put_short;
use crate::shown::Shown;
use reo_net::Net;
use reo_value::{Lexicon, Value};

/// How many pairs were written, and where they end.
#[derive(Clone, Copy)]
pub(crate) struct Run {
    pub(crate) pairs: usize,
    pub(crate) used: usize,
}

/// Writes the pairs up to the first that is long. The room has 64 bytes for each.
#[inline(always)]
pub(crate) fn write_run(
    room: &mut [u8],
    used: usize,
    net: &Net,
    nodes: &Lexicon,
    texts: &Lexicon,
    fronts: &Parts,
    quotes: &Parts,
    shown: &mut Shown,
    pairs: &[(u32, Value)],
) -> Run
    requires fronts { AreFronts net.now nodes.now fronts.now }
    requires quotes { AreQuotes texts.now quotes.now }
    requires room { used + 64 * length pairs.now ≤ length room.old }
    ensures pairs { result.pairs ≤ length pairs.now }
    ensures used { result.used ≤ used + 64 * length pairs.now }
    ensures written { HasWritten room.old used room.new result.used (flat_map (pair_text net.now nodes.now texts.now) (take result.pairs pairs.now)) }
    ensures length { length room.new ≡ length room.old }
{
    let mut run = Run { pairs: 0, used };
    for pair in pairs {
        let Some(front) = short_part(fronts, pair.0) else {
            return run;
        };
        let Some(datum) = short_datum(quotes, shown, pair.1) else {
            return run;
        };
        let named = put_short(room, run.used, front);
        run.used = put_short(room, named, datum);
        run.pairs += 1;
    }
    run
}
