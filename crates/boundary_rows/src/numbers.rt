// The calls that answer a number.
use crate::told::told;
use coinhamper::{arithmetic, governed, logged, merges};
use std::io::Result;

// Floats as their bits.
fn floats(rt: &impl Print) -> Result<()> {
    let nan = arithmetic::coinhamper_of_bits(0x7ff4_0000_0000_0001);
    told(
        rt,
        b"of_bits",
        arithmetic::coinhamper_to_bits(nan),
        arithmetic::coinhamper_to_bits(arithmetic::coinhamper_of_bits(7)),
        0,
    )?;
    told(
        rt,
        b"minimum",
        arithmetic::coinhamper_to_bits(arithmetic::coinhamper_minimum(nan, 2.0)),
        arithmetic::coinhamper_to_bits(arithmetic::coinhamper_maximum(1.0, 2.0)),
        0,
    )?;
    told(
        rt,
        b"absolute",
        arithmetic::coinhamper_to_bits(arithmetic::coinhamper_absolute(-1.0)),
        arithmetic::coinhamper_to_bits(arithmetic::coinhamper_clamp(7.5)),
        0,
    )
}

fn whole(rt: &impl Print) -> Result<()> {
    told(
        rt,
        b"of_u64",
        arithmetic::coinhamper_to_bits(arithmetic::coinhamper_of_u64(9007199254740993)),
        arithmetic::coinhamper_truncate(3.9),
        0,
    )?;
    told(
        rt,
        b"sqrt",
        arithmetic::coinhamper_to_bits(arithmetic::coinhamper_sqrt(2)),
        arithmetic::coinhamper_to_bits(arithmetic::coinhamper_ln_1p(0)),
        0,
    )?;
    told(
        rt,
        b"compare",
        arithmetic::coinhamper_compare(b"ab", b"abc"),
        arithmetic::coinhamper_compare(b"b", b"b"),
        arithmetic::coinhamper_compare(b"b", b"abc"),
    )
}

pub(crate) fn rows(rt: &impl Print) -> Result<()> {
    told(
        rt,
        b"version",
        coinhamper::coinhamper_version(),
        coinhamper::coinhamper_state_words() as u64,
        0,
    )?;
    floats(rt)?;
    whole(rt)?;
    told(
        rt,
        b"dominant",
        governed::coinhamper_dominant(0.05, 0.0, 0.0),
        governed::coinhamper_dominant(0.5, 0.5, 0.5),
        governed::coinhamper_dominant(0.0, 0.0, 0.5),
    )?;
    let score = merges::coinhamper_cause_aware_score(0.0, 1.0, 0.0, 4, 0, 0.0, 0.5, 0.0);
    told(rt, b"score", arithmetic::coinhamper_to_bits(score), 0, 0)?;
    told(
        rt,
        b"kept_place",
        logged::coinhamper_kept_place(4095, 2),
        logged::coinhamper_is_decision(&[0; 14]),
        logged::coinhamper_is_decision(&[4; 14]),
    )
}
