// The terms of Newcomb's series (document 01, "The Sun"; document 02, request 7; source 001, section 2.1), laid out for `series`. Amplitudes and
// phases are in units of 0.0001″; behind each row stand the amplitude and the angle as they are printed, the angle of a sine, or with the planets
// of a cosine.
use arguments::{D, JUPITER, L, MARS, MM, MS, MV, P1, P2, P3, P4, SATURN};
use secular::{Polynomial, SQUARE};
use series::{Group, Series};

// The constant of aberration, in units: 20.496″.
pub const ABERRATION: i64 = 204_960;

// A quadrant, in units: a cosine's phase has one more.
const Q: i64 = 3_240_000_000;

// The centre terms: two amplitudes vary.
pub static CENTRE: Series = Series {
    varying: &[
        [69_100_571, -172_400, -518, 0, 1, MS as i64], // 1.9194603° − 0.0047889° T − 0.0000144° T², Ms
        [723_380, -3_611, 0, 0, 2, MS as i64], // 0.0200939° − 0.0001003° T, 2Ms
    ],
    groups: &[Group {
        arguments: [MS, L, L],
        rows: &[
            [10_541, 0, 3, 0, 0], // 0.0002928°, 3Ms
            [180, 0, 4, 0, 0], // 0.0000050°, 4Ms
        ],
    }],
};

// The long period terms, the Moon's and Venus's.
pub static PERIODIC: Series = Series {
    varying: &[],
    groups: &[
        Group {
            arguments: [P1, P2, P3],
            rows: &[
                [64_000, 0, 1, 0, 0], // 6.40″, 231.19° + 20.20° T
                [18_820, 0, 0, 1, 0], // 1.882″, 57.24° + 150.27° T
                [2_020, 0, 0, 0, 1], // 0.202″, 315.60° + 893.30° T
            ],
        },
        Group {
            arguments: [D, MM, MS],
            rows: &[
                [64_540, 0, 1, 0, 0], // 6.454″, D
                [130, 0, 3, 0, 0], // 0.013″, 3D
                [1_770, 0, 1, 1, 0], // 0.177″, D + Mm
                [-4_240, 0, 1, -1, 0], // −0.424″, D − Mm
                [390, 0, 3, -1, 0], // 0.039″, 3D − Mm
                [-640, 0, 1, 0, 1], // −0.064″, D + Ms
                [1_720, 0, 1, 0, -1], // 0.172″, D − Ms
                [-130, 0, 1, -1, -1], // −0.013″, D − Mm − Ms
            ],
        },
        Group {
            arguments: [MV, MS, L],
            rows: &[
                [48_380, 10_767_672_000 + Q, 1, -1, 0], // 4.838″, 299.102° + Mv − Ms
                [1_160, 5_360_400_000 + Q, 2, -1, 0], // 0.116″, 148.900° + 2Mv − Ms
                [55_260, 5_339_268_000 + Q, 2, -2, 0], // 5.526″, 148.313° + 2Mv − 2Ms
                [24_970, 11_373_948_000 + Q, 2, -3, 0], // 2.497″, 315.943° + 2Mv − 3Ms
                [6_660, 6_397_560_000 + Q, 3, -3, 0], // 0.666″, 177.710° + 3Mv − 3Ms
                [15_590, 12_429_108_000 + Q, 3, -4, 0], // 1.559″, 345.253° + 3Mv − 4Ms
                [10_240, 11_453_400_000 + Q, 3, -5, 0], // 1.024″, 318.150° + 3Mv − 5Ms
                [2_100, 7_423_200_000 + Q, 4, -4, 0], // 0.210″, 206.200° + 4Mv − 4Ms
                [1_440, 7_034_400_000 + Q, 4, -5, 0], // 0.144″, 195.400° + 4Mv − 5Ms
                [1_520, 12_376_800_000 + Q, 4, -6, 0], // 0.152″, 343.800° + 4Mv − 6Ms
                [1_230, 7_030_800_000 + Q, 5, -7, 0], // 0.123″, 195.300° + 5Mv − 7Ms
                [1_540, 12_945_600_000 + Q, 5, -8, 0], // 0.154″, 359.600° + 5Mv − 8Ms
            ],
        },
    ],
};

// What the full edition adds: of 1.882″ − 0.016″ T the part that varies, a fourth long period term, and the terms of Mars, Jupiter and Saturn.
pub static FURTHER: Series = Series {
    varying: &[
        [0, -160, 0, 0, 1, P2 as i64], // −0.016″ T, 57.24° + 150.27° T
    ],
    groups: &[
        Group {
            arguments: [P4, L, L],
            rows: &[
                [2_660, 0, 1, 0, 0], // 0.266″, 31.8° + 119.0° T
            ],
        },
        Group {
            arguments: [MARS, MS, L],
            rows: &[
                [2_730, 7_837_200_000 + Q, -1, 1, 0], // 0.273″, 217.700° − Mars + Ms
                [20_430, 12_379_968_000 + Q, -2, 2, 0], // 2.043″, 343.888° − 2 Mars + 2Ms
                [17_700, 7_214_472_000 + Q, -2, 1, 0], // 1.770″, 200.402° − 2 Mars + Ms
                [1_290, 10_591_200_000 + Q, -3, 3, 0], // 0.129″, 294.200° − 3 Mars + 3Ms
                [4_250, 12_199_680_000 + Q, -3, 2, 0], // 0.425″, 338.880° − 3 Mars + 2Ms
                [5_000, 3_811_680_000 + Q, -4, 3, 0], // 0.500″, 105.880° − 4 Mars + 3Ms
                [5_850, 12_026_160_000 + Q, -4, 2, 0], // 0.585″, 334.060° − 4 Mars + 2Ms
                [2_040, 3_628_800_000 + Q, -5, 3, 0], // 0.204″, 100.800° − 5 Mars + 3Ms
                [1_540, 8_186_400_000 + Q, -6, 4, 0], // 0.154″, 227.400° − 6 Mars + 4Ms
                [1_010, 3_466_800_000 + Q, -6, 3, 0], // 0.101″, 96.300° − 6 Mars + 3Ms
                [1_060, 8_017_200_000 + Q, -7, 4, 0], // 0.106″, 222.700° − 7 Mars + 4Ms
            ],
        },
        Group {
            arguments: [JUPITER, MS, L],
            rows: &[
                [1_630, 7_149_600_000 + Q, -1, 2, 0], // 0.163″, 198.600° − Jupiter + 2Ms
                [72_080, 6_463_152_000 + Q, -1, 1, 0], // 7.208″, 179.532° − Jupiter + Ms
                [26_000, 9_475_812_000 + Q, -1, 0, 0], // 2.600″, 263.217° − Jupiter
                [27_310, 3_137_220_000 + Q, -2, 2, 0], // 2.731″, 87.145° − 2 Jupiter + 2Ms
                [16_100, 3_941_748_000 + Q, -2, 1, 0], // 1.610″, 109.493° − 2 Jupiter + Ms
                [1_640, 6_138_000_000 + Q, -3, 3, 0], // 0.164″, 170.500° − 3 Jupiter + 3Ms
                [5_560, 2_975_400_000 + Q, -3, 2, 0], // 0.556″, 82.650° − 3 Jupiter + 2Ms
                [2_100, 3_546_000_000 + Q, -3, 1, 0], // 0.210″, 98.500° − 3 Jupiter + Ms
            ],
        },
        Group {
            arguments: [SATURN, MS, L],
            rows: &[
                [4_190, 3_620_880_000 + Q, -1, 1, 0], // 0.419″, 100.580° − Saturn + Ms
                [3_200, 9_700_560_000 + Q, -1, 0, 0], // 0.320″, 269.460° − Saturn
                [1_080, 10_461_600_000 + Q, -2, 2, 0], // 0.108″, 290.600° − 2 Saturn + 2Ms
                [1_120, 10_569_600_000 + Q, -2, 1, 0], // 0.112″, 293.600° − 2 Saturn + Ms
            ],
        },
    ],
};

// What the short edition leaves out: the amplitudes of those groups together, and what varies of 1.882″ − 0.016″ T.
pub const DROPPED_STEADY: u64 = 227_570;

pub const DROPPED_VARYING: Polynomial = Polynomial {
    c0: 0,
    c1: -160,
    c2: 0,
    divisor: SQUARE,
};
