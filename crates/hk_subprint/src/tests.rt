// The expected print of silence is that of the worked examples.
use crate::{differences, print_of};
use hk_bands::Energies;
use hk_base::Print;
use std::test::Fail;

#[test]
fn silence_has_the_word_0(rt: HostRuntime) -> Result<(), Fail> {
    let silence = Energies { band: [0; 33] };
    let print = print_of(&differences(&silence, &silence), 4);
    assert_eq!(rt;
        print,
        Print {
            word: 0,
            mask: 0x0000_000f
        }
    );
    Ok(())
}
