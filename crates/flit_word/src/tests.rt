//! The word of a flit in the network of two tiles, and the flit of it.

use crate::{Flit, LinkFlit, flit_bits, link_bits, of_word, to_link, to_word};
use std::test::Fail;
use worked_plans::two_tiles;

#[test]
fn a_flit_and_its_word(rt: HostRuntime) -> Result<(), Fail> {
    let plan = two_tiles(rt.alloc())?;
    let flit = Flit {
        head: true,
        tail: true,
        dest: 1,
        payload: 10,
    };
    assert_eq!(&rt; to_word(&plan, flit), 30_064_771_082);
    assert_eq!(&rt; of_word(&plan, 30_064_771_082), flit);
    assert_eq!(&rt; flit_bits(&plan), 35);
    assert_eq!(&rt; link_bits(&plan), 37);
    assert_eq!(&rt;
        to_link(&plan, Some(LinkFlit { channel: 0, flit })),
        98_784_247_818
    );
    assert_eq!(&rt; to_link(&plan, None), 0);
    Ok(())
}
