//! Circuits as documents tell them: which of them the checks refuse, and their regions, templates and tables.
use reo_cut::{Cut, cut_of};
use reo_document::{Document, read_document};
use reo_net::{CheckRefusal, Net, check};
use reo_product::{ProductRefusal, RegionTable, region_table};
use std::alloc::Global;

pub fn document(alloc: Global, text: &str) -> Option<Document> {
    if text.len() > 100_000 {
        return None;
    }
    read_document(alloc, text.as_bytes()).ok()
}

fn checked(alloc: Global, document: &Document) -> Result<Net, CheckRefusal> {
    let raw = document.circuit(alloc)?;
    check(alloc, &raw)
}

/// The circuit of a document, or why the checks refuse it.
pub fn net(alloc: Global, text: &str) -> Option<Result<Net, CheckRefusal>> {
    let document = document(alloc, text)?;
    Some(checked(alloc, &document))
}

/// The cut of a circuit that is accepted.
pub fn cut(alloc: Global, text: &str) -> Option<Cut> {
    let net = net(alloc, text)?.ok()?;
    cut_of(alloc, &net).ok()
}

/// The table of a region, or why it has none.
pub fn table(
    alloc: Global,
    text: &str,
    region: u32,
) -> Option<Result<RegionTable, ProductRefusal>> {
    let net = net(alloc, text)?.ok()?;
    match cut_of(alloc, &net) {
        Ok(cut) => Some(region_table(alloc, &net, &cut, region)),
        Err(_) => None,
    }
}
