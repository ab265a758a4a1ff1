// The terms of the nutation, of the Explanatory Supplement of 1961 (document 01, "The Sun"; source 000, Table 3), laid out for `series`, and the
// coefficients of sidereal time ("Time"). Amplitudes and phases are in units of 0.0001″; behind each row stands the term as it is printed, in
// seconds of arc.
use arguments::{L, LM, MS, OMEGA};
use series::{Group, Series};

// A quadrant, in units: a cosine's phase has one more.
const Q: i64 = 3_240_000_000;

// The terms of Δψ: one amplitude varies.
pub static DPSI: Series = Series {
    varying: &[
        [-172_327, -174, 0, 0, 1, OMEGA as i64], // −(17.2327 + 0.01737 T) sin Ω
    ],
    groups: &[
        Group {
            arguments: [OMEGA, L, LM],
            rows: &[
                [2_088, 0, 2, 0, 0], // 0.2088 sin 2Ω
                [-12_729, 0, 0, 2, 0], // −1.2729 sin 2L
                [-2_037, 0, 0, 0, 2], // −0.2037 sin 2Lm
            ],
        },
        Group {
            arguments: [MS, L, L],
            rows: &[
                [1_261, 0, 1, 0, 0], // 0.1261 sin Ms
            ],
        },
    ],
};

// The terms of Δε: no amplitude varies.
pub static DEPS: Series = Series {
    varying: &[],
    groups: &[Group {
        arguments: [OMEGA, L, LM],
        rows: &[
            [92_100, Q, 1, 0, 0], // 9.2100 cos Ω
            [5_522, Q, 0, 2, 0], // 0.5522 cos 2L
            [-904, Q, 2, 0, 0], // −0.0904 cos 2Ω
            [884, Q, 0, 0, 2], // 0.0884 cos 2Lm
        ],
    }],
};

// What Newcomb's sidereal time has beyond the time since midnight, a row like those of `arguments`, in units: 6h 38m 45.836s, 8640184.542s T,
// 0.0929s T².
pub const SIDEREAL: [i64; 4] = [3_588_875_400, 0, 1_296_027_681_300, 13_935];
