// Where each number stands: document 01's word numbers and counts. Words that come later go at the image's end, so that a new word is a new line
// here and in specs/Layout.antt, which has the same names.

// Widths of the parts that stand more than once.
pub const VEC_WORDS: usize = 3;

pub const QUINTIC_WORDS: usize = 7;

pub const T_END: usize = 6; // of a quintic's words the last

pub const ADRC_WORDS: usize = 4;

pub const AXIS_WORDS: usize = 9;

pub const BIQUAD_WORDS: usize = 9;

pub const LEG_WORDS: usize = 19;

pub const LEG_BYTES: usize = 4 * LEG_WORDS;

// The image.
pub const COUNT: usize = 0; // the image's own number of words

pub const GAINS: usize = 1;

pub const SET: usize = 10;

pub const ENTER: usize = 13;

pub const EXIT: usize = 14;

pub const ENGAGED: usize = 15; // 1 or 0

pub const GOVERNOR: usize = 16; // its time first

pub const SEGMENT: usize = 20;

pub const RATE: usize = 41;

pub const LPF: usize = 68;

pub const PROFILE: usize = 95; // its word: 0 or 1

pub const PEAKS: usize = 96; // of the jerk, axis by axis

pub const IMAGE_WORDS: usize = 99;

pub const IMAGE_BYTES: usize = 4 * IMAGE_WORDS;

// What set-up is given.
pub const SETUP_GAINS: usize = 0;

pub const SETUP_SET: usize = 9;

pub const SETUP_ENTER: usize = 12;

pub const SETUP_EXIT: usize = 13;

pub const SETUP_BAND: usize = 14; // err_lo, err_hi, g_min

pub const SETUP_LEG: usize = 17;

pub const SETUP_ADRC: usize = 36;

pub const SETUP_FC: usize = 48;

pub const SETUP_FS: usize = 49;

pub const SETUP_PROFILE: usize = 50;

pub const SETUP_WORDS: usize = 51;

pub const SETUP_BYTES: usize = 4 * SETUP_WORDS;

// What a tick is given.
pub const GYRO: usize = 0;

pub const QUAT: usize = 3;

pub const TRACK_ERR: usize = 7;

pub const YAW: usize = 8;

pub const YAW_RATE: usize = 9;

pub const DT: usize = 10;

pub const AGILE: usize = 11;

pub const FRACTION: usize = 14;

pub const INPUT_WORDS: usize = 17;

pub const INPUT_BYTES: usize = 4 * INPUT_WORDS;

// What a tick answers.
pub const TORQUE: usize = 0;

pub const COMMAND: usize = 3;

pub const FLAG: usize = 6; // 1 where the command is the fallback's, else 0

pub const TIME: usize = 7;

pub const PSI: usize = 8;

pub const MARGIN: usize = 9;

pub const ANSWER_WORDS: usize = 10;

pub const ANSWER_BYTES: usize = 4 * ANSWER_WORDS;
