//! The examples, mended.
ghost use Rattle.std.specs.Prelude.{◌≡◌};
ghost use Rattle.go_explain_core.specs.Mendings.{mending_of};

use go_text_core::Rule;

// In the order of the rules.
const MENDINGS: [&str; 84] = [
    "package a\n\nconst price = 5\n", // L1
    "package a\n\nconst name = \"Ada\"\n", // L2
    "package a\n\nconst n = 8\n", // L3
    "package a\n\ntype Number = int\n\nfunc f() {\n}\n", // P1
    "package a\n\nconst deep = 1\n", // P2
    "-- ex.com/a/a.go --\npackage a\n-- ex.com/a/b.go --\npackage a\n", // K2
    "package a\n\nconst c = 1\n", // K3
    "-- ex.com/a/a.go --\npackage a\n\nconst c = 1\n-- ex.com/a/b.go --\npackage a\n\nconst d = c\n", // K4
    "-- ex.com/a/a.go --\npackage a\n\nimport _ \"ex.com/b\"\n-- ex.com/b/b.go --\npackage b\n", // I1
    "-- ex.com/a/a.go --\npackage a\n\nimport _ \"ex.com/found\"\n-- ex.com/found/found.go --\npackage found\n", // I2
    "-- ex.com/a/a.go --\npackage a\n\nimport _ \"ex.com/b/c\"\n-- ex.com/b/c/c.go --\npackage c\n", // I3
    "-- ex.com/a/a.go --\npackage a\n\nimport _ \"ex.com/b\"\n-- ex.com/b/b.go --\npackage b\n", // I4
    "-- ex.com/a/a.go --\npackage a\n\nimport _ \"ex.com/lib\"\n-- ex.com/lib/lib.go --\npackage lib\n", // I5
    "-- ex.com/a/a.go --\npackage a\n\nimport _ \"ex.com/b\"\n-- ex.com/b/b.go --\npackage b\n-- ex.com/b/c.go --\npackage b\n", // I6
    "-- ex.com/a/a.go --\npackage a\n\nimport \"ex.com/b\"\n\nconst n = b.N\n-- ex.com/b/b.go --\npackage b\n\nconst N = 1\n", // I7
    "package a\n\nconst c = 1\nconst d = 2\n", // B1
    "-- ex.com/a/a.go --\npackage a\n\nimport \"ex.com/b\"\n\nconst Size = b.Length\n-- ex.com/b/b.go --\npackage b\n\nconst Length = 1\nconst Size = 2\n", // B2
    "package main\n\nfunc main() {\n}\n", // B3
    "package a\n\nfunc f() int {\n\tx := 1\n\tx = 2\n\treturn x\n}\n", // B4
    "package a\n\ntype T struct {\n\tname string\n\tsize int\n}\n", // B5
    "package a\n\ntype Number int\n\ntype Int = Number\n\nfunc (n Number) Double() Number {\n\treturn n + n\n}\n\nfunc (n Int) Half() Int {\n\treturn n / 2\n}\n", // B6
    "package a\n\nfunc f(x int) int {\n\treturn x\n}\n", // N1
    "-- ex.com/a/a.go --\npackage a\n\nimport \"ex.com/b\"\n\nconst m = b.Limit\nconst n = b.Size\n-- ex.com/b/b.go --\npackage b\n\nconst Limit = 2\nconst Size = 1\n", // N2
    "-- ex.com/a/a.go --\npackage a\n\nimport \"ex.com/b\"\n\nconst m = b.Limit\nconst n = b.Size\n-- ex.com/b/b.go --\npackage b\n\nconst Limit = 2\nconst Size = 1\n", // N3
    "-- ex.com/a/a.go --\npackage a\n\nimport \"ex.com/b\"\n\nconst m = b.Limit\nconst n = b.Size\n-- ex.com/b/b.go --\npackage b\n\nconst Limit = 2\nconst Size = 1\n", // N4
    "package a\n\nfunc f() int {\n\treturn int(1)\n}\n", // N5
    "package a\n\ntype size int\n\nfunc f(n size) {\n}\n", // N6
    "package a\n\nfunc f(x int) {\n}\n", // N7
    "package a\n\nfunc f() int {\n\treturn 0\n}\n", // N8
    "-- ex.com/a/a.go --\npackage a\n\nimport \"ex.com/found\"\n\nconst n = found.N\n-- ex.com/found/found.go --\npackage found\n\nconst N = 1\n", // N9
    "package a\n\ntype Point struct {\n\tx int\n}\n\nfunc f(p Point) int {\n\treturn p.x\n}\n", // S1
    "package a\n\ntype A struct {\n\tn int\n}\n\ntype B struct {\n\tn int\n}\n\ntype Both struct {\n\tA\n\tB\n}\n\nfunc f(x Both) int {\n\treturn x.A.n\n}\n", // S2
    "-- ex.com/a/a.go --\npackage a\n\nimport \"ex.com/b\"\n\nfunc f(p b.Point) int {\n\treturn p.X\n}\n-- ex.com/b/b.go --\npackage b\n\ntype Point struct {\n\tX int\n}\n", // S3
    "package a\n\ntype Point struct {\n\tx int\n}\n\nfunc f() Point {\n\treturn Point{x: 1}\n}\n\nfunc g() int {\n\treturn f().x\n}\n", // S4
    "package a\n\ntype Counter struct {\n\tn int\n}\n\nfunc (c *Counter) Add() {\n\tc.n++\n}\n\nfunc fresh() Counter {\n\treturn Counter{}\n}\n\nfunc f() {\n\tc := fresh()\n\tc.Add()\n}\n", // S5
    "package a\n\ntype Point struct {\n\tx int\n}\n\nfunc f(p **Point) int {\n\treturn (*p).x\n}\n", // S6
    "package a\n\ntype Number int\n\nfunc (n Number) Double() Number {\n\treturn n + n\n}\n\ntype Link *Number\n\nfunc f(l Link) Number {\n\treturn (*l).Double()\n}\n", // S7
    "package a\n\ntype Point struct {\n\tx int\n}\n\nfunc f(p Point) int {\n\treturn p.x\n}\n", // S8
    "package a\n\ntype Point struct {\n\tx int\n}\n\nfunc f() Point {\n\treturn Point{x: 1}\n}\n", // F1
    "-- ex.com/a/a.go --\npackage a\n\nimport \"ex.com/b\"\n\nfunc f() b.Point {\n\treturn b.Point{X: 1}\n}\n-- ex.com/b/b.go --\npackage b\n\ntype Point struct {\n\tX int\n}\n", // F2
    "package a\n\ntype Base struct {\n\tn int\n}\n\ntype Outer struct {\n\tBase\n}\n\nfunc f() Outer {\n\treturn Outer{Base: Base{n: 1}}\n}\n", // F3
    "package a\n\ntype Point struct {\n\tx, y int\n}\n\nfunc f() Point {\n\treturn Point{x: 1, y: 2}\n}\n", // F4
    "package a\n\ntype Point struct {\n\tx, y int\n}\n\nfunc f() Point {\n\treturn Point{x: 1, y: 2}\n}\n", // F5
    "package a\n\ntype Point struct {\n\tx, y int\n}\n\nfunc f() Point {\n\treturn Point{1, 2}\n}\n", // F6
    "-- ex.com/a/a.go --\npackage a\n\nimport \"ex.com/b\"\n\nfunc f() b.Point {\n\treturn b.Point{1}\n}\n-- ex.com/b/b.go --\npackage b\n\ntype Point struct {\n\tX int\n}\n", // F7
    "package a\n\ntype Number struct {\n\tn int\n}\n\nfunc f() Number {\n\treturn Number{}\n}\n", // F8
    "package a\n\nfunc n() {\n}\n\nfunc f() {\n\tn()\n}\n", // C1
    "package a\n\nfunc add(x, y int) int {\n\treturn x + y\n}\n\nfunc f() int {\n\treturn add(1, 2)\n}\n", // C2
    "package a\n\nfunc double(n int) int {\n\treturn n + n\n}\n\nfunc f() int {\n\treturn double(2)\n}\n", // C3
    "package a\n\nfunc f(text string) int {\n\treturn len(text)\n}\n", // C4
    "package a\n\ntype Node struct {\n\tvalue int\n\tnext  *Node\n}\n\ntype First = Second\ntype Second = Node\n", // Y1
    "package a\n\ntype Shape interface {\n\tArea() int\n}\n\ntype Holder struct {\n\tShape\n}\n", // Y2
    "package a\n\nfunc f(n int) bool {\n\treturn n == 1\n}\n", // Y3
    "package a\n\nvar n int = 1\n", // Y4
    "package a\n\nfunc sign(n int) int {\n\tif n < 0 {\n\t\treturn -1\n\t}\n\treturn 1\n}\n", // Y5
    "package a\n\nfunc f() {\n\tfor {\n\t\tbreak\n\t}\n}\n", // Y6
    "package a\n\nconst c = 1\n\nfunc f() int {\n\treturn c\n}\n", // Y7
    "package a\n\nfunc f(n int) int {\n\treturn n + 1\n}\n", // Y8
    "package a\n\nfunc f(n int) int {\n\treturn n * 2\n}\n", // X1
    "Ask for a package that is there. Of one whose files make no package, mend K2, K3 or K4 first.\n", // Q1
    "Ask at the first byte of an identifier, or inside one.\n", // Q2
    "Ask at a place where a declared name is used.\n", // Q3
    "Ask for a package below the module, or in a session that holds the other module.\n", // Q4
    "Close the first session, or open another module.\n", // O1
    "Give 1 to 16 elements with a / between each two, each of letters, digits and - . _ ~ with no dot at its ends, as ex.com/a.\n", // O2
    "Open a module whose path lies beside the other. One that was ever built counts until the daemon ends: start it anew to be rid of it.\n", // O3
    "Close a session that is not needed. A module that was ever built counts until the daemon ends: where there are 32, start it anew.\n", // O4
    "Open the session first, or name one that is open.\n", // O5
    "Name the folder with letters, digits and - . _ ~ with no dot at its ends, as my-code.\n", // E1
    "Name the file with at most 64 letters, digits and _ - . before and in .go, as my_code.go.\n", // E2
    "Divide the file into several of the same package.\n", // E3
    "Divide the package into several.\n", // E4
    "Divide the module into several.\n", // E5
    "Start the daemon anew. The sessions open their modules and send their files again.\n", // H1
    "Start the service anew.\n", // H2
    "Nothing is to be mended: the result is passed over.\n", // Z1
    "Give the program more memory, as by a larger ulimit -v, or check fewer packages at once. A daemon goes on, and what it holds stays.\n", // M0
    "Run a package main, and declare func main() { } in it.\n", // J1
    "Use what can be run in the functions that main reaches.\n", // J2
    "Give the run more steps, or see that the program ends.\n", // J3
    "Send the text in several requests.\n", // V1
    "Send one JSON object a line, with the members that the command takes.\n", // V2
    "Send the name of a command, as {\"cmd\":\"build\"}\n", // V3
    "Start the program anew, and see that its standard input stays open.\n", // V4
];

// The example of a rule, mended.
pub(crate) fn mending(rule: Rule) -> &'static str
    ensures { result.now ≡ mending_of rule }
{
    MENDINGS[rule as usize]
}
