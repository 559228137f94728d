//! Where the coded bits of a step stand in a received word of 60 places, and how they are brought together.
ghost use Rattle.std.specs.Prelude.{◌≡◌, ◌≤◌, true};
ghost use Rattle.ht_clean.specs.Planes.{is_layout};
ghost use Rattle.ht_viterbi.specs.Packed.{word_steps};

use crate::planes::Planes;
use ht_rate::Pattern;

/// Bits that stay where they are, and bits that are drawn down from places above.
#[derive(Clone, Copy)]
pub(crate) struct Stage {
    pub(crate) keep: u64,
    pub(crate) draw: u64,
}

/// How the two planes of a word are gathered from its places.
///
/// `a` and `b` take their bits out, each from its place or from the one above, so that a step's bits have one number, with
/// a gap of one behind each period. Five stages, which draw bits down by 1, 2, 4, 8 and 16, then close the gaps.
pub(crate) struct Layout {
    pub(crate) a: Stage,
    pub(crate) b: Stage,
    pub(crate) by_one: Stage,
    pub(crate) by_two: Stage,
    pub(crate) by_four: Stage,
    pub(crate) by_eight: Stage,
    pub(crate) by_sixteen: Stage,
    /// The steps of which A, and B, is kept.
    pub(crate) kept: Planes,
}

static HALF: Layout = Layout {
    a: Stage {
        keep: 0x555_5555_5555_5555,
        draw: 0x0,
    },
    b: Stage {
        keep: 0,
        draw: 0x555_5555_5555_5555,
    },
    by_one: Stage {
        keep: 0x111_1111_1111_1111,
        draw: 0x222_2222_2222_2222,
    },
    by_two: Stage {
        keep: 0x303_0303_0303_0303,
        draw: 0xc_0c0c_0c0c_0c0c,
    },
    by_four: Stage {
        keep: 0xf_000f_000f_000f,
        draw: 0x30_00f0_00f0_00f0,
    },
    by_eight: Stage {
        keep: 0xff_0000_00ff,
        draw: 0x3f00_0000_ff00,
    },
    by_sixteen: Stage {
        keep: 0xffff,
        draw: 0x3fff_0000,
    },
    kept: Planes {
        a: 0x3fff_ffff,
        b: 0x3fff_ffff,
    },
};

static TWO_THIRDS: Layout = Layout {
    a: Stage {
        keep: 0x249_2492_4924_9249,
        draw: 0x492_4924_9249_2492,
    },
    b: Stage {
        keep: 0,
        draw: 0x249_2492_4924_9249,
    },
    by_one: Stage {
        keep: 0xc3_0c30_c30c_30c3,
        draw: 0x30c_30c3_0c30_c30c,
    },
    by_two: Stage {
        keep: 0xf_00f0_0f00_f00f,
        draw: 0xf0_0f00_f00f_00f0,
    },
    by_four: Stage {
        keep: 0xff_0000_ff00_00ff,
        draw: 0xff_0000_ff00,
    },
    by_eight: Stage {
        keep: 0xff_0000_0000_ffff,
        draw: 0xffff_0000,
    },
    by_sixteen: Stage {
        keep: 0xffff_ffff,
        draw: 0xff_0000_0000,
    },
    kept: Planes {
        a: 0xff_ffff_ffff,
        b: 0x55_5555_5555,
    },
};

static THREE_QUARTERS: Layout = Layout {
    a: Stage {
        keep: 0x111_1111_1111_1111,
        draw: 0x222_2222_2222_2222,
    },
    b: Stage {
        keep: 0,
        draw: 0x555_5555_5555_5555,
    },
    by_one: Stage {
        keep: 0x707_0707_0707_0707,
        draw: 0x38_3838_3838_3838,
    },
    by_two: Stage {
        keep: 0x3f_003f_003f_003f,
        draw: 0x1c0_0fc0_0fc0_0fc0,
    },
    by_four: Stage {
        keep: 0xfff_0000_0fff,
        draw: 0x1f_f000_00ff_f000,
    },
    by_eight: Stage {
        keep: 0xff_ffff,
        draw: 0x1fff_ff00_0000,
    },
    by_sixteen: Stage {
        keep: 0x1fff_ffff_ffff,
        draw: 0x0,
    },
    kept: Planes {
        a: 0xdb6_db6d_b6db,
        b: 0x16db_6db6_db6d,
    },
};

static FIVE_SIXTHS: Layout = Layout {
    a: Stage {
        keep: 0x41_0410_4104_1041,
        draw: 0x28a_28a2_8a28_a28a,
    },
    b: Stage {
        keep: 0,
        draw: 0x555_5555_5555_5555,
    },
    by_one: Stage {
        keep: 0x1f_01f0_1f01_f01f,
        draw: 0x3e0_3e03_e03e_03e0,
    },
    by_two: Stage {
        keep: 0x3ff_0003_ff00_03ff,
        draw: 0xffc_000f_fc00,
    },
    by_four: Stage {
        keep: 0x3ff_0000_000f_ffff,
        draw: 0xff_fff0_0000,
    },
    by_eight: Stage {
        keep: 0xff_ffff_ffff,
        draw: 0x3_ff00_0000_0000,
    },
    by_sixteen: Stage {
        keep: 0x3_ffff_ffff_ffff,
        draw: 0x0,
    },
    kept: Planes {
        a: 0x1_6b5a_d6b5_ad6b,
        b: 0x2_b5ad_6b5a_d6b5,
    },
};

/// The layout of a pattern's words.
#[inline(always)]
#[tactic(auto, unfolding(crate::specs::Planes::is_layout, crate::specs::Planes::takes_step, crate::specs::Planes::traced))]
pub(crate) fn layout_of(pattern: Pattern) -> &'static Layout
    ensures { is_layout pattern result.now ≡ true }
{
    match pattern {
        Pattern::Half => &HALF,
        Pattern::TwoThirds => &TWO_THIRDS,
        Pattern::ThreeQuarters => &THREE_QUARTERS,
        Pattern::FiveSixths => &FIVE_SIXTHS,
    }
}

/// The number of steps whose places a word holds.
#[inline(always)]
pub(crate) fn steps_of_word(pattern: Pattern) -> u32
    ensures value { result ≡ word_steps pattern }
    ensures least { 30 ≤ result }
    ensures most { result ≤ 50 }
{
    match pattern {
        Pattern::Half => 30,
        Pattern::TwoThirds => 40,
        Pattern::ThreeQuarters => 45,
        Pattern::FiveSixths => 50,
    }
}
