//! The meaning of programs (C11 6.5, 6.8, 6.9), and their runs on tests.
#![tactic(auto)]

mod argument;
mod bind;
mod context;
mod globals;
mod laws;
mod library;
mod outcome;
mod plain;
mod run;
mod state;
mod stop;
mod storage;

pub use argument::Argument;
pub use bind::{bind_params, decided, make_variable, store_zeros};
pub use context::CALL_LIMIT;
pub use laws::{blocks_end, cells_fit, loops_turn, units_fall};
pub use library::{call_abs, call_exit, call_getchar, call_printf, call_putchar, call_scanf};
pub use outcome::{Outcome, finished, outcome_at};
pub use plain::plain_run;
pub use state::State;
pub use stop::{End, Flow, Stop};
