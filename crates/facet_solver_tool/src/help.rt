//! What the program says of itself.

/// The name and version.
pub const VERSION: &str = "facet_solver_tool 1.0.0";

/// How the program is called.
pub const HELP: &str = "\
Reads a document of JSON as a Rust type, and tells which variants it means.

Usage:
    facet_solver_tool read TYPES [ROOT] [--strict] [--json] < DOCUMENT
    facet_solver_tool read TYPES [ROOT] [--strict] --lines < DOCUMENTS
    facet_solver_tool check TYPES [ROOT] [--strict] [--json] [--accept FILE]
    facet_solver_tool catalogue TYPES [ROOT]
    facet_solver_tool --help | --version

TYPES is a file of Rust declarations, with attributes of serde or facet. ROOT is
the name of the type to read. Without it, it is the one type that no other names.

    read        prints the only reading of the document on standard input
    check       prints how each enum is written, if the root can be read, and each
                ambiguity: variants, and a document that several of them read
    catalogue   prints the shapes of the types as JSON
    --strict    refuses members that no type has
    --json      prints the reading as JSON, in one line, or each line of a check
    --accept    takes ambiguities that FILE has, as check --json prints them
    --lines     reads each line as a document, and prints a line of JSON for it:
                {\"reading\": ..} as --json prints it, or {\"status\": .., \"error\": \"..\"}

Status: 0 answered, 1 no reading, 2 several readings or variants that are not
told apart, 3 a fault of the types, 4 a fault of the document, 5 out of memory,
6 such variants as may be, 7 an accepted ambiguity that is none, 64 bad
arguments or an unreadable file, 74 a failed write. With --lines it is the
first of 5, 4, 2 and 1 that a line has, and else 0.";
