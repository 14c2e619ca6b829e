// A roll of at most two songs, 1000 words and two versions, by hand.
ghost use Rattle.std.specs.Prelude.{◌≤◌};

use crate::{Edit, Refused, Roll};
use hk_table::SongBlock;
use std::alloc::{AllocError, Global};

// Checks an edit, and notes it if nothing is against it.
#[tactic(auto, using(crate::proofs::RollSongs::passes))]
fn done(roll: &mut Roll, edit: &Edit) -> Result<(), Refused> {
    match edit {
        Edit::Add(song) => {
            roll.check_add(song.id(), song.length() as u64)?;
            roll.note(edit);
        }
        Edit::Withdraw(id) => {
            roll.check_withdraw(*id)?;
            roll.note(edit);
        }
        Edit::Seal => {
            roll.check_seal()?;
            roll.note(edit);
        }
    }
    Ok(())
}

fn adding(alloc: Global, id: u32, length: usize) -> Result<Edit, AllocError>
    requires long { 256 ≤ length }
    requires short { length ≤ 1000 }
{
    Ok(Edit::Add(SongBlock::new(id, vec![in alloc; 0; length]?)))
}

#[test]
fn edits_are_refused_with_their_numbers(rt: HostRuntime) -> Result<(), AllocError> {
    let Ok(mut roll) = Roll::new(rt.alloc(), 2, 1000, 2) else {
        panic!(rt; "no memory");
    };
    assert_eq!(rt;
        done(&mut roll, &Edit::Withdraw(9)),
        Err(Refused::Unknown(9))
    );
    assert_eq!(rt; roll.check_add(9, 255), Err(Refused::Short(255)));
    assert_eq!(rt;
        roll.check_add(9, 1001),
        Err(Refused::PositionsFull(1000, 1001))
    );
    assert_eq!(rt; done(&mut roll, &adding(rt.alloc(), 9, 700)?), Ok(()));
    assert_eq!(rt; roll.check_add(9, 255), Err(Refused::Duplicate(9)));
    assert_eq!(rt;
        done(&mut roll, &adding(rt.alloc(), 4, 301)?),
        Err(Refused::PositionsFull(300, 301))
    );
    assert_eq!(rt; done(&mut roll, &adding(rt.alloc(), 4, 300)?), Ok(()));
    assert_eq!(rt; roll.check_add(7, 301), Err(Refused::SongsFull(2)));
    assert_eq!(rt; done(&mut roll, &Edit::Withdraw(9)), Ok(()));
    assert_eq!(rt; roll.check_withdraw(9), Err(Refused::Unknown(9)));
    assert_eq!(rt;
        roll.check_add(9, 701),
        Err(Refused::PositionsFull(700, 701))
    );
    assert_eq!(rt; done(&mut roll, &adding(rt.alloc(), 9, 700)?), Ok(()));
    assert_eq!(rt; roll.check_add(9, 255), Err(Refused::Duplicate(9)));
    assert_eq!(rt; done(&mut roll, &Edit::Seal), Ok(()));
    assert_eq!(rt; done(&mut roll, &Edit::Seal), Ok(()));
    assert_eq!(rt; done(&mut roll, &Edit::Seal), Err(Refused::VersionsFull(2)));
    Ok(())
}
