//! Parameters of terminals: bodies that carry them, and the table that keeps them.
#![tactic(auto)]

mod bodies;
mod param;
mod table;

pub use bodies::{
    judge_params, judge_params_reply, judge_query_some, law_param_bodies, params_fit,
    params_reply_fits, query_some_fits, read_params, read_params_reply, read_query_some,
    write_params, write_params_reply, write_query_some,
};
pub use param::{Kind, Param, ParamValue, kind_of};
pub use table::{ParamError, ParamTable, law_tables};
