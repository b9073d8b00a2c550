//! What files declare outside bodies.
use crate::blocks::kind_word;
use crate::show::{Lines, Named, identifier_at};
use go_graph_core::PackageSource;

/// Adds what the files of a package declare outside bodies: of each identifier its number, its kind, its spelling and its place.
pub fn add_keys(out: &mut Lines, package: &Named, source: &PackageSource) {
    let mut file = 0usize;
    for read in source.files() {
        let mut number = 0usize;
        for place in package.places(file) {
            out.count("", number, " ");
            out.add(kind_word(place.kind));
            out.add(" ");
            out.add(identifier_at(read.text(), place.at));
            out.add(" ");
            package.add_place(out, file, place.at);
            out.line("");
            number = number.saturating_add(1);
        }
        file = file.saturating_add(1);
    }
}
