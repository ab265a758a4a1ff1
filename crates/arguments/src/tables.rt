// The coefficients of the time arguments (document 01, "Time"; document 02, request 7), in units of 0.0001 second of arc: at 1900 January 0.5, for a century, for a
// century squared. That for a century is stored in two parts, as `exact::per_century` takes it: how many times it holds C, and the rest. Behind each row stand
// its argument and the printed degrees; the source of each is named in specs/PrintedArguments.antt.
use exact::CENTURY as C;

// How many arguments there are, and how many with those that the full edition of the Sun's series takes besides.
pub const COUNT: usize = 11;

pub const FULL_COUNT: usize = 15;

pub static ROWS: [[i64; 4]; COUNT] = [
    [10_069_080_408, 0, 1_296_027_681_300, 10_908], // L: 279.696678, 36000.768925, 0.000303
    [12_905_129_988, 0, 1_295_965_791_000, -5_400], // Ms: 358.475833, 35999.04975, −0.00015
    [10_659_765_888, 5, 17_179_158_567_888 - 5 * C, 330_912], // Mm: 296.104608, 477198.849108, 0.009192
    [7_653_715_992, 0, 2_106_640_939_500, 46_296], // Mv: 212.603222, 58517.803875, 0.001286
    [12_626_549_496, 5, 16_029_616_111_812 - 5 * C, -51_696], // D: 350.737486, 445267.114217, −0.001436
    [9_330_597_900, -1, C - 69_629_112_288, 74_801], // Ω: 259.183275, −1934.142008, 0.0020778
    [9_735_629_904, 5, 17_325_643_793_101 - 5 * C, -40_799], // Lm: 270.434164, 481267.8831417, −0.0011333
    [844_282_584, -1, C - 468_450, -59], // ε₀: 23.452294, −0.0130125, −0.00000164
    [8_322_840_000, 0, 727_200_000, 0], // P1: 231.19, 20.20
    [2_060_640_000, 0, 5_409_720_000, 0], // P2: 57.24, 150.27
    [11_361_600_000, 0, 32_158_800_000, 0], // P3: 315.60, 893.30
];

// Those of the full edition, behind the others.
pub static FURTHER_ROWS: [[i64; 4]; 4] = [
    [1_144_800_000, 0, 4_284_000_000, 0], // P4: 31.8, 119.0
    [11_503_044_792, 0, 689_034_931_884, 6_516], // Mars: 319.529022, 19139.859219, 0.000181
    [8_111_819_880, 0, 109_258_632_720, -25_992], // Jupiter: 225.32833, 3034.96202, −0.000722
    [6_316_783_920, 0, 43_975_852_920, -18_072], // Saturn: 175.46622, 1221.55147, −0.000502
];

// Where each stands among them; a term of a series names its arguments by these.
// L, the Sun's mean longitude.
pub const L: usize = 0;

// Ms, the Sun's mean anomaly.
pub const MS: usize = 1;

// Mm, the Moon's mean anomaly.
pub const MM: usize = 2;

// Mv, the mean anomaly of Venus.
pub const MV: usize = 3;

// D, the Moon's mean elongation from the Sun.
pub const D: usize = 4;

// Ω, the longitude of the Moon's ascending node.
pub const OMEGA: usize = 5;

// Lm, the Moon's mean longitude.
pub const LM: usize = 6;

// ε₀, the mean obliquity of the ecliptic.
pub const EPSILON0: usize = 7;

// The arguments of the long period terms of 6.40″, 1.882″ and 0.202″.
pub const P1: usize = 8;

pub const P2: usize = 9;

pub const P3: usize = 10;

// And of the full edition: the argument of its long period term of 0.266″, and the mean anomalies of Mars, Jupiter and Saturn.
pub const P4: usize = 11;

pub const MARS: usize = 12;

pub const JUPITER: usize = 13;

pub const SATURN: usize = 14;
