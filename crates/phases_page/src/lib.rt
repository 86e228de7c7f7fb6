// The page of the three-phase meter: 586 bytes that hold the whole record, big-endian. A directory of
// eight pairs of offset and length comes first, then the areas that it names. Those that the one-phase
// meter has too are as long as in its page. Here are the layout, what writer and reader answer and
// leave, and why a page holds its account.
#![tactic(auto)]

use page::{ALARMS_LEN, CLOCK_LEN, CONTROL_LEN, LOG_LEN, REGISTER_LEN};

// The length of a monitored value: threshold, Exceeded and Run.
pub const MONITORED_LEN: usize = 9;

// The length of the limiter area: Over, Under and the four monitored values.
pub const LIMITERS_LEN: usize = 8 + 4 * MONITORED_LEN;

// Where the areas begin: behind the eight pairs, of four bytes each.
pub const THREE_PHASE_CONTROL: usize = 32;

pub const LIMITERS: usize = THREE_PHASE_CONTROL + CONTROL_LEN;

pub const THREE_PHASE_CLOCK: usize = LIMITERS + LIMITERS_LEN;

pub const THREE_PHASE_ALARMS: usize = THREE_PHASE_CLOCK + CLOCK_LEN;

pub const THREE_PHASE_ERRORS: usize = THREE_PHASE_ALARMS + ALARMS_LEN;

pub const THREE_PHASE_FIRST_LOG: usize = THREE_PHASE_ERRORS + REGISTER_LEN;

pub const THREE_PHASE_SECOND_LOG: usize = THREE_PHASE_FIRST_LOG + LOG_LEN;

pub const THREE_PHASE_THIRD_LOG: usize = THREE_PHASE_SECOND_LOG + LOG_LEN;

pub const THREE_PHASE_PAGE_LEN: usize = THREE_PHASE_THIRD_LOG + LOG_LEN;
