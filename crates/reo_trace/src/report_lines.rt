//! A report's text, made as the steps fire.
ghost use Rattle.std.specs.Prelude.{◌≡◌, ℕ, List, IfOk};
ghost use Rattle.reo_net.specs.declared.circuit.RawCircuit.{RawCircuit as AnyCircuit};
ghost use Rattle.reo_net.specs.declared.circuit.Step.{Step as AnyStep};
ghost use Rattle.reo_trace.specs.Lines.{no_lines, after_steps};
ghost use Rattle.reo_trace.specs.ReportText.{report_text};

use crate::calls::push_calls;
use crate::fronts::fronts_of;
use crate::lines::{push_ending, push_step};
use crate::numbers::StepFront;
use crate::parts::Parts;
use crate::quotes::quotes_of;
use crate::shown::Shown;
use crate::{Called, Ending, Recorder};
use reo_net::Net;
use reo_value::{Lexicon, Value};
use sqlite_items::Items;
use std::alloc::{AllocError, Global};
use std::marker::Model;

/// The lines of a run's steps so far, in one buffer.
#[derive(Drop)]
pub struct ReportLines<'a> {
    alloc: Global,
    net: &'a Net,
    nodes: &'a Lexicon,
    texts: &'a Lexicon,
    fronts: Parts,
    quotes: Parts,
    shown: Shown,
    text: Vec<u8>,
    used: usize,
    front: StepFront,
}

impl<'a> Model for ReportLines<'a> {
    ghost use Rattle.std.specs.Prelude.{◌≤◌, take, vec_len};
    ghost use Rattle.std.specs.Coded.{codes};
    ghost use Rattle.reo_guard.specs.contracts.guard.Guard as guard;
    ghost use Rattle.reo_trace.specs.Fronts.{AreFronts, AreQuotes};
    ghost use Rattle.reo_trace.specs.Lines.{LinesState};

    ghost Value = { LinesState };

    ghost coded = { Prim.hlevel (codes, guard.the_row.coded) };

    ghost view = { λ l. record {
      circuit = l.net.now;
      nodes = l.nodes.now;
      texts = l.texts.now;
      text = take l.used l.text.items;
      count = l.front;
    } };

    ghost invariant = { λ l. AreFronts l.net.now l.nodes.now l.fronts × AreQuotes l.texts.now l.quotes × (l.front ≤ l.used) × (l.used ≤ vec_len l.text) };
}

impl<'a> ReportLines<'a> {
    /// No lines yet, of a run of this circuit, with the names of its nodes and the texts of its values.
    pub fn new(
        alloc: Global,
        net: &'a Net,
        nodes: &'a Lexicon,
        texts: &'a Lexicon,
    ) -> Result<ReportLines<'a>, AllocError>
        ensures { IfOk result (λ lines. lines ≡ no_lines net.now nodes.now texts.now) }
    {
        let fronts = fronts_of(alloc, net, nodes)?;
        let quotes = quotes_of(alloc, texts)?;
        Ok(ReportLines {
            alloc,
            net,
            nodes,
            texts,
            fronts,
            quotes,
            shown: Shown::new(0),
            text: Vec::new(alloc),
            used: 0,
            front: StepFront::new(0),
        })
    }

    /// The whole text, with the names of the components, their calls and the end.
    pub fn end(
        self,
        people: &Lexicon,
        calls: &[Items<Called>],
        ending: Ending,
    ) -> Result<Vec<u8>, AllocError>
        ensures { IfOk result (λ text. (c : AnyCircuit) (nodes texts : List (List ℕ)) (steps : List AnyStep) → self.entry ≡ after_steps (no_lines c nodes texts) steps → text.items ≡ report_text c nodes texts people.now (record { steps = steps; calls = calls.now; ending = ending })) }
    {
        let mut text = self.text;
        text.truncate(self.used);
        let mut shown = self.shown;
        push_calls(
            &mut text,
            self.alloc,
            self.net,
            self.nodes,
            self.texts,
            &self.quotes,
            &mut shown,
            people,
            calls,
        )?;
        push_ending(&mut text, ending)?;
        Ok(text)
    }
}

impl<'a> Recorder for ReportLines<'a> {
    ghost use Rattle.std.specs.Prelude.{◌≡◌};
    ghost use Rattle.reo_trace.specs.Lines.{after_steps};

    ghost has_kept = { λ start now steps. now ≡ after_steps start steps };

    fn keep(&mut self, pairs: &[(u32, Value)]) -> Result<(), AllocError> {
        self.used = push_step(
            &mut self.text,
            self.used,
            self.net,
            self.nodes,
            self.texts,
            &self.fronts,
            &self.quotes,
            &mut self.shown,
            &self.front,
            pairs,
        )?;
        self.front.advance();
        Ok(())
    }
}
