//! Examples that break the rules.
ghost use Rattle.std.specs.Prelude.{◌≡◌};
ghost use Rattle.go_explain_core.specs.Examples.{deep_example, example_of};

use go_text_core::Rule;

// In the order of the rules.
const EXAMPLES: [&str; 84] = [
    "package a\n\nconst price = #5\n", // L1
    "package a\n\nconst name = \"Ada\n", // L2
    "package a\n\nconst n = 08\n", // L3
    "package a\n\ntype List = []int\n\nfunc f( {\n}\n", // P1
    "", // P2: `deep`
    "-- ex.com/a/a.go --\npackage a\n-- ex.com/a/b.go --\npackage b\n", // K2
    "package _\n\nconst c = 1\n", // K3
    "-- ex.com/a/a.go --\npackage a\n\nconst c = )\n-- ex.com/a/b.go --\npackage a\n\nconst d = c\n", // K4
    "package a\n\nimport _ \"../b\"\n", // I1
    "package a\n\nimport _ \"ex.com/lost\"\n", // I2
    "-- ex.com/a/a.go --\npackage a\n\nimport _ \"ex.com/b/internal/c\"\n-- ex.com/b/internal/c/c.go --\npackage c\n", // I3
    "-- ex.com/a/a.go --\npackage a\n\nimport _ \"ex.com/b\"\n-- ex.com/b/b.go --\npackage b\n\nimport _ \"ex.com/a\"\n", // I4
    "-- ex.com/a/a.go --\npackage a\n\nimport _ \"ex.com/cmd\"\n-- ex.com/cmd/main.go --\npackage main\n\nfunc main() {\n}\n", // I5
    "-- ex.com/a/a.go --\npackage a\n\nimport _ \"ex.com/b\"\n-- ex.com/b/b.go --\npackage b\n-- ex.com/b/c.go --\npackage c\n", // I6
    "-- ex.com/a/a.go --\npackage a\n\nimport \"ex.com/b\"\n-- ex.com/b/b.go --\npackage b\n\nconst N = 1\n", // I7
    "package a\n\nconst c = 1\nconst c = 2\n", // B1
    "-- ex.com/a/a.go --\npackage a\n\nimport . \"ex.com/b\"\n\nconst Size = Length\n-- ex.com/b/b.go --\npackage b\n\nconst Length = 1\nconst Size = 2\n", // B2
    "package main\n\nfunc main() int {\n\treturn 0\n}\n", // B3
    "package a\n\nfunc f() int {\n\tx := 1\n\tx := 2\n\treturn x\n}\n", // B4
    "package a\n\ntype T struct {\n\tname string\n\tname int\n}\n", // B5
    "package a\n\ntype Int = int\n\nfunc (n int) Double() int {\n\treturn n + n\n}\n\nfunc (n Int) Half() int {\n\treturn n / 2\n}\n", // B6
    "package a\n\nfunc f() int {\n\treturn x\n}\n", // N1
    "-- ex.com/a/a.go --\npackage a\n\nimport \"ex.com/b\"\n\nconst m = b.Limit\nconst n = b.size\n-- ex.com/b/b.go --\npackage b\n\nconst Limit = 2\nconst size = 1\n", // N2
    "-- ex.com/a/a.go --\npackage a\n\nimport \"ex.com/b\"\n\nconst m = b.Limit\nconst n = b.Size\n-- ex.com/b/b.go --\npackage b\n\nconst Limit = 2\n", // N3
    "-- ex.com/a/a.go --\npackage a\n\nimport \"ex.com/b\"\n\nconst m = b.Limit\nconst n = b\n-- ex.com/b/b.go --\npackage b\n\nconst Limit = 2\nconst Size = 1\n", // N4
    "package a\n\nfunc f() int {\n\treturn int\n}\n", // N5
    "package a\n\nconst size = 1\n\nfunc f(n size) {\n}\n", // N6
    "package a\n\nfunc f(x float64) {\n}\n", // N7
    "package a\n\nfunc f() int {\n\treturn _\n}\n", // N8
    "-- ex.com/a/a.go --\npackage a\n\nimport \"ex.com/lost\"\n\nconst n = lost.N\n", // N9
    "package a\n\ntype Point struct {\n\tx int\n}\n\nfunc f(p Point) int {\n\treturn p.z\n}\n", // S1
    "package a\n\ntype A struct {\n\tn int\n}\n\ntype B struct {\n\tn int\n}\n\ntype Both struct {\n\tA\n\tB\n}\n\nfunc f(x Both) int {\n\treturn x.n\n}\n", // S2
    "-- ex.com/a/a.go --\npackage a\n\nimport \"ex.com/b\"\n\nfunc f(p b.Point) int {\n\treturn p.x\n}\n-- ex.com/b/b.go --\npackage b\n\ntype Point struct {\n\tx int\n}\n", // S3
    "package a\n\nfunc f() {\n}\n\nfunc g() int {\n\treturn f().x\n}\n", // S4
    "package a\n\ntype Counter struct {\n\tn int\n}\n\nfunc (c *Counter) Add() {\n\tc.n++\n}\n\nfunc fresh() Counter {\n\treturn Counter{}\n}\n\nfunc f() {\n\tfresh().Add()\n}\n", // S5
    "package a\n\ntype Point struct {\n\tx int\n}\n\nfunc f(p **Point) int {\n\treturn p.x\n}\n", // S6
    "package a\n\ntype Number int\n\nfunc (n Number) Double() Number {\n\treturn n + n\n}\n\ntype Link *Number\n\nfunc f(l Link) Number {\n\treturn l.Double()\n}\n", // S7
    "package a\n\ntype Point struct {\n\tx int\n}\n\nfunc f(p Point) int {\n\treturn p._\n}\n", // S8
    "package a\n\ntype Point struct {\n\tx int\n}\n\nfunc f() Point {\n\treturn Point{z: 1}\n}\n", // F1
    "-- ex.com/a/a.go --\npackage a\n\nimport \"ex.com/b\"\n\nfunc f() b.Point {\n\treturn b.Point{x: 1}\n}\n-- ex.com/b/b.go --\npackage b\n\ntype Point struct {\n\tx int\n}\n", // F2
    "package a\n\ntype Base struct {\n\tn int\n}\n\ntype Outer struct {\n\tBase\n}\n\nfunc f() Outer {\n\treturn Outer{n: 1}\n}\n", // F3
    "package a\n\ntype Point struct {\n\tx, y int\n}\n\nfunc f() Point {\n\treturn Point{x: 1, x: 2}\n}\n", // F4
    "package a\n\ntype Point struct {\n\tx, y int\n}\n\nfunc f() Point {\n\treturn Point{x: 1, 2}\n}\n", // F5
    "package a\n\ntype Point struct {\n\tx, y int\n}\n\nfunc f() Point {\n\treturn Point{1}\n}\n", // F6
    "-- ex.com/a/a.go --\npackage a\n\nimport \"ex.com/b\"\n\nfunc f() b.Point {\n\treturn b.Point{1}\n}\n-- ex.com/b/b.go --\npackage b\n\ntype Point struct {\n\tx int\n}\n", // F7
    "package a\n\ntype Number int\n\nfunc f() Number {\n\treturn Number{}\n}\n", // F8
    "package a\n\nfunc f(n int) {\n\tn()\n}\n", // C1
    "package a\n\nfunc add(x, y int) int {\n\treturn x + y\n}\n\nfunc f() int {\n\treturn add(1)\n}\n", // C2
    "package a\n\nfunc double(n int) int {\n\treturn n + n\n}\n\nfunc f() int {\n\treturn double(\"two\")\n}\n", // C3
    "package a\n\nfunc f(text string) int {\n\treturn int(text)\n}\n", // C4
    "package a\n\ntype Node struct {\n\tvalue int\n\tnext  Node\n}\n\ntype First = Second\ntype Second = First\n", // Y1
    "package a\n\ntype Shape interface {\n\tArea() int\n}\n\ntype Holder struct {\n\t*Shape\n}\n", // Y2
    "package a\n\nfunc f(n int) bool {\n\treturn n == \"one\"\n}\n", // Y3
    "package a\n\nvar n int = \"one\"\n", // Y4
    "package a\n\nfunc sign(n int) int {\n\tif n < 0 {\n\t\treturn -1\n\t}\n}\n", // Y5
    "package a\n\nfunc f() {\n\tbreak\n}\n", // Y6
    "package a\n\nfunc f() int {\n\treturn 1\n}\n\nconst c = f()\n", // Y7
    "package a\n\nfunc f(n int) {\n\tn + 1\n}\n", // Y8
    "package a\n\nfunc f(n int) int {\n\treturn n << 1\n}\n", // X1
    "A request for the package ex.com/none, which has no files.\n", // Q1
    "A request at offset 7 of \"package a\": a space stands there.\n", // Q2
    "A request at offset 8 of \"package a\": the name of a package clause denotes nothing.\n", // Q3
    "A request for ex.com/b in a session that holds the module ex.com/a.\n", // Q4
    "A second session opens ex.com/a, which the first one holds.\n", // O1
    "A session opens ex.com//a, or a folder named \"my project\" is checked with no --module.\n", // O2
    "A session opens ex.com/a/b while another holds ex.com/a.\n", // O3
    "A session is opened, and 32 are open.\n", // O4
    "A request to session 3, and sessions 1 and 2 are open.\n", // O5
    "A folder named \"my code\", whose files would be a package ex.com/my code.\n", // E1
    "A file named \"my code.go\".\n", // E2
    "A file of 2 MiB.\n", // E3
    "A folder with 300 source files. A package has at most 256.\n", // E4
    "A module with 200 packages that is handed to the service. It takes at most 128.\n", // E5
    "A session is opened after 1,048,576 events.\n", // H1
    "A session is opened after the service was told to stop.\n", // H2
    "A worker hands in the result of an action that was given back before.\n", // Z1
    "A build of a large module with little memory left.\n", // M0
    "A run of the package a. Only a package main with a function main can be run.\n", // J1
    "A run of a package main whose main calls println(\"a\"), with a string.\n", // J2
    "A run of func main() { for { } } with 1,000 steps.\n", // J3
    "A line of 2,097,153 bytes on standard input. At most 2,097,152 are taken, and no more is read.\n", // V1
    "The line {\"cmd\":\"bui\n", // V2
    "The line {\"cmd\":\"biuld\"}\n", // V3
    "Standard input fails while a request is read.\n", // V4
];

// A number within so many parentheses that its tree is more than 200 high.
fn deep() -> &'static str
    ensures { result.now ≡ deep_example }
{
    "package a\n\nconst deep = (((((((((((((((((((((((((((((((((((((((((((((((((((((((((((((((((((((((((((((((((((((((((((((((((((((((((((((((((((((((((((((((((((((((((((((((((((((((((((((((((((((((((((((((((((((((((((((((((((((((1)))))))))))))))))))))))))))))))))))))))))))))))))))))))))))))))))))))))))))))))))))))))))))))))))))))))))))))))))))))))))))))))))))))))))))))))))))))))))))))))))))))))))))))))))))))))))))))))))))))))\n"
}

// A text that breaks a rule.
pub(crate) fn example(rule: Rule) -> &'static str
    ensures { result.now ≡ example_of rule }
{
    match rule {
        Rule::P2 => deep(),
        _ => EXAMPLES[rule as usize],
    }
}
