//! What the imports of a workspace come to, counted.
use crate::show::Lines;
use go_graph_core::{ImportAt, ImportOutcome, Plan, Workspace};
use go_scope_core::text_core::Rule;

/// The rules that may refuse an import.
const IMPORT_RULES: [Rule; 6] = [Rule::I1, Rule::I2, Rule::I3, Rule::I4, Rule::I5, Rule::I6];

/// How many imports there are, how many of them come to a package, and how many each of the rules refuses.
#[derive(Drop)]
struct Counts {
    all: usize,
    passing: usize,
    refused: [usize; 6],
}

/// Counts the imports of a file.
fn count_file(counts: &mut Counts, plan: &Plan, package: usize, file: usize) {
    for import in 0..usize::MAX {
        let at = ImportAt {
            package,
            file,
            import,
        };
        match plan.outcome(at) {
            Some(ImportOutcome::Package(_)) => counts.passing = counts.passing.saturating_add(1),
            Some(ImportOutcome::Refused(rule)) => {
                for n in 0..6usize {
                    if IMPORT_RULES[n] == rule {
                        counts.refused[n] = counts.refused[n].saturating_add(1);
                    }
                }
            }
            None => return,
        }
        counts.all = counts.all.saturating_add(1);
    }
}

/// Adds how many packages and imports there are, how many imports come to a package, how many each rule refuses
/// that refuses any, and how many packages are in the order.
pub fn add_plan(out: &mut Lines, workspace: &Workspace, plan: &Plan) {
    let mut counts = Counts {
        all: 0,
        passing: 0,
        refused: [0; 6],
    };
    let mut number = 0usize;
    for package in workspace.packages() {
        for file in 0..package.files().len() {
            count_file(&mut counts, plan, number, file);
        }
        number = number.saturating_add(1);
    }
    out.count("packages ", number, " imports ");
    out.count("", counts.all, " passing ");
    out.count("", counts.passing, "");
    for n in 0..6usize {
        if counts.refused[n] > 0 {
            out.pieces(&[" ", IMPORT_RULES[n].number()]);
            out.count(" ", counts.refused[n], "");
        }
    }
    out.count(" order ", plan.order().len(), "\n");
}
