//! Laws of the definitions.
ghost use Rattle.govisd_resolve.specs.Reports.{OneInput};

use go_block_core::graph_core::one_outcome;
use go_block_core::one_blocks_alone;
use go_package_core::one_check;
use go_package_core::report_core::reports_are_one;
use go_parse_core::{one_rule, one_tree};

/// Bytes are one input, and so have one report, but for the place of a P1 or a P2.
pub fn one_input()
    ensures { OneInput }
{
    one_tree();
    one_rule();
    one_outcome();
    one_blocks_alone();
    one_check();
    reports_are_one();
}
