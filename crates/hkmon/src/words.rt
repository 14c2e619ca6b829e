// The words of the command line.
ghost use Rattle.std.specs.Prelude.{◌≡◌, ◌⊎◌, drop, IfOk, IfErr};

use hk_base::Status;
use hk_monitor_top::Refusal;
use std::alloc::Global;
use std::env::{self, Args};
use std::io::ErrorKind;
use std::rt::Env;

/// The words after the program's name. A word that isn't UTF-8 is a faulty command line, and want of memory has a status
/// of its own.
pub fn words_of<R: Env + AllocGlobal>(rt: &R) -> Result<Vec<String>, Status>
    ensures { IfErr result (λ status. (status.code ≡ 2) ⊎ (status.code ≡ 4)) }
{
    match env::args(rt) {
        Ok(args) => behind_name(rt.alloc(), args),
        Err(e) => Err(refusal_of(e.kind())),
    }
}

// The status where the words can't be had.
fn refusal_of(kind: ErrorKind) -> Status
    ensures no_memory { kind ≡ ErrorKind.OutOfMemory → result.code ≡ 4 }
    ensures usage { (kind ≡ ErrorKind.OutOfMemory → ⊥) → result.code ≡ 2 }
{
    match kind {
        ErrorKind::OutOfMemory => Refusal::NoMemory.status(),
        _ => Refusal::Usage.status(),
    }
}

// All words but the first, in their order.
fn behind_name(alloc: Global, args: Args) -> Result<Vec<String>, Status>
    ensures words { IfOk result (λ words. words.items ≡ drop 1 args.rest.items) }
    ensures no_memory { IfErr result (λ status. status.code ≡ 4) }
{
    let mut args = args;
    let _ = args.next();
    let mut words = Vec::new(alloc);
    for word in args {
        if words.push(word).is_err() {
            return Err(Refusal::NoMemory.status());
        }
    }
    Ok(words)
}
