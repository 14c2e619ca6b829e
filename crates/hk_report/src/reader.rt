// Report lines, read back.
ghost use Rattle.std.specs.Prelude.{◌≡◌, ◌++◌, ℕ, List, [], ◌∷◌, IfOk, IfErr, IfSome};
ghost use Rattle.std.specs.Result.{MatchResult};
ghost use Rattle.std.specs.List.{AllByRecursion};
ghost use Rattle.hk_base.specs.declared.plain.Head.{Head as AHead};
ghost use Rattle.hk_base.specs.declared.plain.Match.{Match as AMatch};
ghost use Rattle.hk_spec_lines.specs.Lines.{match_text, list_text, NEWLINE};
ghost use Rattle.hk_report.specs.Pieces.{further_items};
ghost use Rattle.hk_report.specs.Reports.{ItemFits, IsReportOf, IsReport, IsBadPlace};
ghost use Rattle.hk_report.specs.LineReading.{IsCut, ItemField, AreFurther, IsList, StopsBefore};

use crate::head::read_head;
use crate::read::{Misfit, comes_next, read_field, read_last};
use hk_base::{Head, Match};
use std::alloc::Global;

/// Why a text is not read as a report line.
#[derive(Clone, Copy, Debug, PartialEq, Eq)]
pub enum LineFault {
    /// It is none: the place of the first byte that can't stand there, or its length where it breaks off.
    BadLine(usize),
    /// It is one, and memory was refused.
    NoMemory,
}

// Adds an item to those that were kept, if memory has sufficed so far.
fn keep(kept: Option<Vec<Match>>, item: Match) -> Option<Vec<Match>>
    ensures { (items : List AMatch) → IfSome kept (λ v. v.items ≡ items) → IfSome result (λ v. v.items ≡ items ++ item ∷ []) }
{
    match kept {
        Some(mut items) => match items.push(item) {
            Ok(()) => Some(items),
            Err(_) => None,
        },
        None => None,
    }
}

// Reads an item behind a word.
fn read_item<'a>(bytes: &'a [u8], word: &[u8]) -> Result<(Match, &'a [u8]), Misfit<'a>>
    ensures fits { IfOk result (λ read. ItemFits read.0) }
    ensures found { IfOk result (λ read. bytes.now ≡ word.now ++ match_text read.0 ++ read.1.now) }
    ensures cut { IfOk result (λ read. IsCut read.1.now) }
    ensures misfit { IfErr result (λ misfit. StopsBefore (ItemField word.now AreFurther) bytes.now misfit.left.now) }
{
    let most = u32::MAX as u64;
    let (id, rest) = read_field(bytes, word, most)?;
    let (start, rest) = read_field(rest, b"@", most)?;
    let (errors, rest) = read_field(rest, b"~", most)?;
    let item = Match {
        id: id as u32,
        start: start as u32,
        errors: errors as u32,
    };
    Ok((item, rest))
}

// Reads what is left of a list behind its first item, and the line's end. None says that memory was refused.
fn read_further(alloc: Global, first: Match, bytes: &[u8]) -> Result<Option<Vec<Match>>, Misfit<'_>>
    requires { IsCut bytes.now }
    ensures found { IfOk result (λ kept. (items : List AMatch) × AllByRecursion ItemFits items × (bytes.now ≡ further_items items ++ NEWLINE) × IfSome kept (λ v. v.items ≡ first ∷ items)) }
    ensures misfit { IfErr result (λ misfit. StopsBefore AreFurther bytes.now misfit.left.now) }
{
    let mut kept = keep(Some(Vec::new(alloc)), first);
    let mut rest = bytes;
    while comes_next(rest, b' ') {
        let (item, after) = read_item(rest, b" ")?;
        kept = keep(kept, item);
        rest = after;
    }
    read_last(rest, b"\n")?;
    Ok(kept)
}

// Reads a list and the line's end. None says that memory was refused.
fn read_list(alloc: Global, bytes: &[u8]) -> Result<Option<Vec<Match>>, Misfit<'_>>
    ensures found { IfOk result (λ kept. (items : List AMatch) × AllByRecursion ItemFits items × (bytes.now ≡ list_text items ++ NEWLINE) × IfSome kept (λ v. v.items ≡ items)) }
    ensures misfit { IfErr result (λ misfit. StopsBefore IsList bytes.now misfit.left.now) }
{
    if comes_next(bytes, b'n') {
        read_last(bytes, b"none\n")?;
        return Ok(Some(Vec::new(alloc)));
    }
    let (first, rest) = read_item(bytes, b"")?;
    match read_further(alloc, first, rest) {
        Ok(kept) => Ok(kept),
        Err(misfit) => Err(misfit),
    }
}

/// Reads one report line with its newline, and gives its parts. `BadLine(p)` comes where the text is none: the first
/// p + 1 bytes begin no report line, or p is the text's length and all of it begins one.
pub fn read_line(alloc: Global, text: &[u8]) -> Result<(Head, Vec<Match>), LineFault>
    ensures parts { IfOk result (λ read. IsReportOf text.now read.0 read.1.items) }
    ensures round_trip { (head : AHead) (items : List AMatch) → IsReportOf text.now head items
        → MatchResult result (λ read. (read.0 ≡ head) × (read.1.items ≡ items)) (λ fault. fault ≡ LineFault.NoMemory) }
    ensures place { (p : ℕ) → result ≡ Err (LineFault.BadLine p) → IsBadPlace text.now p }
    ensures memory { result ≡ Err LineFault.NoMemory → IsReport text.now }
{
    let (head, list) = match read_head(text) {
        Ok(read) => read,
        Err(misfit) => return Err(LineFault::BadLine(text.len() - misfit.left.len())),
    };
    match read_list(alloc, list) {
        Ok(Some(items)) => Ok((head, items)),
        Ok(None) => Err(LineFault::NoMemory),
        Err(misfit) => Err(LineFault::BadLine(text.len() - misfit.left.len())),
    }
}
