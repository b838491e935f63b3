//! The model of sixteen tasks that share the pages of one region, each with a quota: refusals, the
//! rules for all objects, what a malloc and a free of a task do, and admission: `admit` tests whether
//! a quota is enough for the objects that a task declares before it runs, without a heap.
//! `first_large`, `count_in_all`, `pages_for` and `fill_sizes` do a part of this test. The
//! functions without arguments do nothing: their contracts are laws.
#![tactic(auto)]

mod enough;
mod laws;
mod results;
mod sizes;

pub use enough::{admit, count_in_all, first_large, pages_for};
pub use laws::{a_page_is_there_for_each_quota, there_is_one_admission};
pub use results::{Admission, Need, QuotaFault};
pub use sizes::{CLASSES, fill_sizes};
