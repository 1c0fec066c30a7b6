//! Problems, certificates as they are judged, and which payments satisfy.

ghost use Rattle.std.specs.Prelude.{◌≡◌, true};
ghost use Rattle.std.specs.List.{list_all};
ghost use Rattle.key_table.specs.Atoms.{atom_fits};
ghost use Rattle.rule_problem.specs.Problems.{problem_fits};

use crate::cases::expanded;
use crate::graphs::answer;
use crate::values::{atom, payment};
use constraint_graph::{Builder, Graph};
use contradiction_checker::{Scratch, Verdict, check, check_in};
use key_table::{Atom, KeyTable, Seq};
use rule_problem::{Certificate, Item, Literal, Problem, problem_fits, sat};
use std::alloc::Global;
use std::test::Fail;

// How many atoms and how many items a certificate has here at most.
const MOST: usize = 10_000;

// The keys by which CASES are judged.
pub(crate) const KEYS: &str = r#"key = [
{ name = "method", kind = "enum", variants = ["card", "wallet", "bank", "later", "cash"] },
{ name = "nothing", kind = "enum", variants = [] },
{ name = "country", kind = "enum", variants = [|1024*"v#",|] },
{ name = "amount", kind = "number" },
{ name = "age", kind = "number", min = 10, max = 20 },
{ name = "seven", kind = "number", min = 7, max = 7 },
{ name = "least", kind = "number", max = -9223372036854775808 },
{ name = "most", kind = "number", min = 9223372036854775807 },
{ name = "bin", kind = "text" },
{ name = "data", kind = "metadata" },
]"#;

// Each case is a problem, behind the dashes the atoms of its certificates, and then what certificates and payments are found to
// be. A problem is its atoms, wants, bars, the calls that build its graph, and its goal, which is else the node 0. A literal is
// a sign and the number of its atom; a path is literals with commas and no blanks between them, or a dot where it has none; a
// want is its paths, and bars are paths, with blanks between them. A certificate is its items, and a payment its entries in
// braces. A problem that is not well made is unfit.
const CASES: &str = "atoms any 3 >:200, any 3 >:100
wants +0
bars +1
graph all
--
any 3 >:100, any 3 <:50
accepted <- split:0 bar:0 want:0, split:0 split:1 void:0 bar:0 want:0, split:1 want:0 split:0 bar:0 want:0
rejected 0 <- bar:0
rejected 2 <- split:0 bar:0
rejected 1 <- split:0 want:0 bar:0
rejected 0 <- split:2 bar:0 want:0, void:0, goal
rejected 0 <-
rejected 0 <- todo, want:0
rejected 1 <- split:0
rejected 2 <- split:0 split:1
rejected 4 <- split:0 split:1 void:1 bar:0
rejected 3 <- split:1 want:0 split:0 want:0 bar:0
rejected 0 <- split:4294967295 bar:0 want:0
rejected 1 <- split:0 split:2 void:0 bar:0 want:0
rejected 2 <- split:0 split:1 void:2 bar:0 want:0, split:0 split:1 void:4294967295 bar:0 want:0
rejected 1 <- split:0 bar:1 want:0, split:0 bar:4294967295 want:0
rejected 2 <- split:0 bar:0 want:1, split:0 bar:0 want:4294967295
rejected 1 <- split:0 todo want:0
rejected 2 <- split:0 bar:0 todo
rejected 3 <- split:0 bar:0 want:0 want:0, split:0 bar:0 want:0 todo, split:0 bar:0 want:0 split:9 bar:0
unsat <- {}, {3=number:100}, {3=number:101}, {3=number:300}
===
atoms any 3 >:200, any 3 >:100
wants +0
graph all
--
any 3 >:100
rejected 0 <- want:0
rejected 1 <- split:0 bar:0 want:0
unsat <- {}, {3=number:200}
sat <- {3=number:201}, {3=number:300}
===
atoms any 3 >:5, any 3 <:7
wants +0,+1
graph all
--
any 3 >:5
rejected 1 <- split:0 want:0 want:0
unsat <- {3=number:5}
sat <- {3=number:6}
unsat <- {3=number:7}
===
atoms any 3 >:200, any 3 >:100, any 0 variant:0
wants +0
bars +1,+2
graph all
--
any 3 >:100, any 3 <:50
rejected 1 <- split:0 bar:0 want:0
sat <- {3=number:300}
unsat <- {0=variant:0;3=number:300}
sat <- {0=variant:1;3=number:300}
===
atoms any 3 >:200, any 3 >:100, none 0
wants +0
bars +1 +2
graph all
--
any 3 >:100, any 3 >:100, none 0
accepted <- split:0 split:1 bar:0 void:1 want:0, split:0 split:0 bar:0 void:0 want:0, split:1 bar:0 split:0 void:1 want:0
accepted <- split:0 split:0 bar:0 want:0 want:0, split:0 split:0 bar:0 bar:0 want:0
rejected 3 <- split:0 split:0 bar:0 bar:1 want:0, split:0 split:0 bar:0 void:2 want:0, split:0 split:0 bar:0 goal want:0
rejected 2 <- split:0 split:0 void:0 bar:0 want:0
===
atoms any 0 variant:0
bars +0
graph value 0 variant:0
--
any 0 variant:0, any 0 variant:1, any 9/a text:x
accepted <- split:0 split:1 goal bar:0 goal, split:0 split:1 void:0 bar:0 goal, split:0 split:1 bar:0 bar:0 goal
rejected 2 <- split:0 split:2 goal bar:0 goal, split:0 split:1 void:2 bar:0 goal
rejected 0 <- goal
===
atoms any 0 variant:0
bars -0
graph value 0 variant:0, all, edge -0 1
goal 1
--
any 0 variant:0, any 0 variant:1, any 9/a text:x
accepted <- split:0 split:1 void:0 goal bar:0
rejected 2 <- split:0 split:1 goal goal bar:0
accepted <- split:0 goal bar:0, split:0 split:1 bar:0 goal bar:0
===
atoms any 0 variant:0
graph value 0 variant:0, all, edge +0 1, edge -0 1
goal 1
--
any 0 variant:0, any 0 variant:1, any 9/a text:x
rejected 0 <- goal
accepted <- split:0 goal goal, split:0 split:1 goal goal goal
unsat <- {}, {0=variant:0}
===
graph any
--

accepted <- goal
rejected 1 <- goal goal
rejected 0 <-
unsat <- {}
===
graph all
--

rejected 0 <- goal, want:0, bar:0, void:0, split:0
sat <- {}, {0=variant:4}
unsat <- {0=variant:5}, {1=variant:0}, {3=text:a}, {9=text:a}, {10=number:0}
===
graph any, all
goal 1
--

rejected 0 <- goal
sat <- {}
===
atoms none 3, any 0 variant:0
bars +0,+1
graph key 3, value 0 variant:0, edge +0 1
goal 1
--
none 3, any 0 variant:0
accepted <- split:0 split:1 bar:0 goal goal, split:1 split:0 bar:0 goal goal
rejected 2 <- split:0 split:1 goal goal goal
rejected 1 <- split:0 goal goal, split:1 goal goal
===
atoms none 3, any 0 variant:0
graph key 3, value 0 variant:0, edge +0 1
goal 1
--
none 3
rejected 1 <- split:0 goal goal
sat <- {0=variant:0;3=number:1}
unsat <- {3=number:1}, {0=variant:1;3=number:1}, {0=variant:0}
===
wants , .
graph all
--

accepted <- want:0
rejected 0 <- want:1
rejected 1 <- want:0 want:1
unsat <- {}
===
bars .
graph all
--

accepted <- bar:0
unsat <- {}
===
wants .
graph all
--

rejected 0 <- want:0
sat <- {}
===
atoms none 0, none 3
wants +0,-0 +1
bars -1
graph all
--
none 3, none 0
rejected 0 <- want:0
rejected 1 <- split:0 want:0 bar:0
rejected 2 <- split:1 split:0 want:0 bar:0 want:0
unsat <- {}, {0=variant:0}
sat <- {3=number:0}
===
atoms none 3, any 3 <:-9223372036854775808, any 3 <=:-9223372036854775808, any 3 >:-9223372036854775808, any 3 >=:-9223372036854775808, any 3 !=:-9223372036854775808, none 3 >:-9223372036854775808, none 3 >=:-9223372036854775808, none 3 <:-9223372036854775808, any 3 >:9223372036854775807, any 3 >=:9223372036854775807, any 3 <:9223372036854775807, any 3 <=:9223372036854775807, any 3 =:9223372036854775807, none 3 <:9223372036854775807, none 3 <=:9223372036854775807, none 3 >:9223372036854775807, none 3 !=:9223372036854775807, none 3 <=:9223372036854775806, none 3 <=:9223372036854775806 =:9223372036854775807, none 3 >=:-9223372036854775807, any 3 >=:-9223372036854775807 =:-9223372036854775808, none 3 <:0 >:0, none 3 <=:0 >=:1, any 3 <:0 !=:0, any 3 !=:0 =:0
wants +0, +1, +2, +3, +4, +5, +6, +7, +8, +9, +10, +11, +12, +13, +14, +15, +16, +17, +18, +19, +20, +21, +22, +23, +24, +25
bars +0 +1 +2 +3 +4 +5 +6 +7 +8 +9 +10 +11 +12 +13 +14 +15 +16 +17 +18 +19 +20 +21 +22 +23 +24 +25
graph all
--
none 3
accepted <- want:1, want:7, want:9, want:15, want:19, want:23
rejected 0 <- want:2, want:3, want:4, want:5, want:6, want:8, want:10, want:11, want:12, want:13, want:14, want:16, want:17, want:18, want:20
rejected 0 <- want:21, want:22, want:24, want:25
accepted <- split:0 bar:4 want:0, split:0 bar:8 want:0, split:0 bar:12 want:0, split:0 bar:16 want:0, split:0 bar:21 want:0
accepted <- split:0 bar:25 want:0
rejected 1 <- split:0 bar:1 want:0, split:0 bar:2 want:0, split:0 bar:3 want:0, split:0 bar:5 want:0, split:0 bar:6 want:0
rejected 1 <- split:0 bar:7 want:0, split:0 bar:9 want:0, split:0 bar:10 want:0, split:0 bar:11 want:0, split:0 bar:13 want:0
rejected 1 <- split:0 bar:14 want:0, split:0 bar:15 want:0, split:0 bar:17 want:0, split:0 bar:18 want:0, split:0 bar:19 want:0
rejected 1 <- split:0 bar:20 want:0, split:0 bar:22 want:0, split:0 bar:23 want:0, split:0 bar:24 want:0
===
atoms none 4, any 4 =:9, any 4 =:10, any 4 !=:9, any 4 !=:10, any 4 <:10, any 4 <=:10, any 4 <:20, any 4 <=:20, any 4 <:21, any 4 >:20, any 4 >=:20, any 4 >:10, any 4 >=:10, any 4 >:9, none 4 =:21, none 4 =:20, none 4 !=:21, none 4 !=:20, none 4 <:10, none 4 <=:10, none 4 <:20, none 4 <=:20, none 4 <:21, none 4 >:20, none 4 >=:20, none 4 >:10, none 4 >=:10, none 4 >:9, any 4 <=:-9223372036854775808, any 4 >=:-9223372036854775808, none 4 <:9223372036854775807, none 4 >=:9223372036854775807, any 4 >:9223372036854775807, none 4 <:12 >:12, none 4 <:12 >:11, none 4 =:10 =:11 =:12 =:13 =:14 =:16 =:17 =:18 =:19 =:20, any 4 =:10 =:11 =:12 =:13 =:14 =:15 =:16 =:17 =:18 =:19 =:20
wants +0, +1, +2, +3, +4, +5, +6, +7, +8, +9, +10, +11, +12, +13, +14, +15, +16, +17, +18, +19, +20, +21, +22, +23, +24, +25, +26, +27, +28, +29, +30, +31, +32, +33, +34, +35, +36, +37
bars +0 +1 +2 +3 +4 +5 +6 +7 +8 +9 +10 +11 +12 +13 +14 +15 +16 +17 +18 +19 +20 +21 +22 +23 +24 +25 +26 +27 +28 +29 +30 +31 +32 +33 +34 +35 +36 +37
graph all
--
none 4
accepted <- want:1, want:5, want:10, want:17, want:22, want:23, want:27, want:28, want:29, want:31, want:33, want:35
rejected 0 <- want:2, want:3, want:4, want:6, want:7, want:8, want:9, want:11, want:12, want:13, want:14, want:15, want:16, want:18, want:19
rejected 0 <- want:20, want:21, want:24, want:25, want:26, want:30, want:32, want:34, want:36, want:37
accepted <- split:0 bar:3 want:0, split:0 bar:8 want:0, split:0 bar:9 want:0, split:0 bar:13 want:0, split:0 bar:14 want:0
accepted <- split:0 bar:15 want:0, split:0 bar:19 want:0, split:0 bar:24 want:0, split:0 bar:30 want:0, split:0 bar:32 want:0
accepted <- split:0 bar:37 want:0
rejected 1 <- split:0 bar:1 want:0, split:0 bar:2 want:0, split:0 bar:4 want:0, split:0 bar:5 want:0, split:0 bar:6 want:0
rejected 1 <- split:0 bar:7 want:0, split:0 bar:10 want:0, split:0 bar:11 want:0, split:0 bar:12 want:0, split:0 bar:16 want:0
rejected 1 <- split:0 bar:17 want:0, split:0 bar:18 want:0, split:0 bar:20 want:0, split:0 bar:21 want:0, split:0 bar:22 want:0
rejected 1 <- split:0 bar:23 want:0, split:0 bar:25 want:0, split:0 bar:26 want:0, split:0 bar:27 want:0, split:0 bar:28 want:0
rejected 1 <- split:0 bar:29 want:0, split:0 bar:31 want:0, split:0 bar:33 want:0, split:0 bar:34 want:0, split:0 bar:35 want:0
rejected 1 <- split:0 bar:36 want:0
===
atoms none 5, any 5 =:7, any 5 !=:7, none 5 =:7, none 5 !=:7, any 5 <:7, any 5 >:7, any 5 >=:7, any 5 =:6, any 5 >=:9223372036854775807
wants +0, +1, +2, +3, +4, +5, +6, +7, +8, +9
bars +0 +1 +2 +3 +4 +5 +6 +7 +8 +9
graph all
--
none 5
accepted <- want:2, want:3, want:5, want:6, want:8, want:9
rejected 0 <- want:1, want:4, want:7
accepted <- split:0 bar:1 want:0, split:0 bar:4 want:0, split:0 bar:7 want:0
rejected 1 <- split:0 bar:2 want:0, split:0 bar:3 want:0, split:0 bar:5 want:0, split:0 bar:6 want:0, split:0 bar:8 want:0
rejected 1 <- split:0 bar:9 want:0
===
atoms none 6, any 6 =:-9223372036854775808, any 6 <:-9223372036854775807, any 6 >:-9223372036854775808, none 6 >:-9223372036854775808, none 6 !=:-9223372036854775808, any 6 <:9223372036854775807
wants +0, +1, +2, +3, +4, +5, +6
bars +0 +1 +2 +3 +4 +5 +6
graph all
--
none 6
accepted <- want:3
rejected 0 <- want:1, want:2, want:4, want:5, want:6
accepted <- split:0 bar:1 want:0, split:0 bar:2 want:0, split:0 bar:4 want:0, split:0 bar:5 want:0, split:0 bar:6 want:0
rejected 1 <- split:0 bar:3 want:0
===
atoms none 7, any 7 =:9223372036854775807, any 7 >:9223372036854775806, any 7 <:9223372036854775807, none 7 <:9223372036854775807, none 7 !=:9223372036854775807, any 7 >:-9223372036854775808
wants +0, +1, +2, +3, +4, +5, +6
bars +0 +1 +2 +3 +4 +5 +6
graph all
--
none 7
accepted <- want:3
rejected 0 <- want:1, want:2, want:4, want:5, want:6
accepted <- split:0 bar:1 want:0, split:0 bar:2 want:0, split:0 bar:4 want:0, split:0 bar:5 want:0, split:0 bar:6 want:0
rejected 1 <- split:0 bar:3 want:0
===
atoms any 4 =:15, none 4 =:15, any 4 !=:15, none 4 !=:15, any 4 <:15, none 4 <:15, any 4 <=:15, none 4 <=:15, any 4 >:15, none 4 >:15, any 4 >=:15, none 4 >=:15, none 4
wants +0,+1, +2,+3, +4,+5, +6,+7, +8,+9, +10,+11, +12
bars +0 +1 +2 +3 +4 +5 +6 +7 +8 +9 +10 +11
graph all
--
any 4 =:15, any 4 !=:15, any 4 <:15, any 4 <=:15, any 4 >:15, any 4 >=:15, none 4
accepted <- split:0 want:0 want:0, split:1 want:1 want:1, split:2 want:2 want:2, split:3 want:3 want:3, split:4 want:4 want:4
accepted <- split:5 want:5 want:5, split:6 split:0 bar:0 bar:1 want:6, split:6 split:1 bar:2 bar:3 want:6, split:6 split:2 bar:4 bar:5 want:6
accepted <- split:6 split:3 bar:6 bar:7 want:6, split:6 split:4 bar:8 bar:9 want:6, split:6 split:5 bar:10 bar:11 want:6
rejected 2 <- split:0 want:0 want:2
rejected 3 <- split:6 split:2 bar:4 bar:6 want:6
accepted <- split:6 split:3 split:2 bar:4 bar:0 bar:7 want:6, split:6 split:3 split:1 bar:4 bar:0 bar:8 want:6
rejected 4 <- split:6 split:3 split:1 bar:4 bar:1 bar:8 want:6
===
atoms any 1, none 1, any 0, none 0, any 3, none 3, any 8, none 8, any 9/a, none 9/a, none 0 variant:0 variant:1 variant:2 variant:3 variant:4, none 0 variant:4 variant:3 variant:1 variant:0
wants +0, +1, +2, +3, +4, +5, +6, +7, +8, +9, +10, +11
bars +0 +1 +2 +3 +4 +5 +6 +7 +8 +9 +10 +11 -0 -1 -2 -3
graph all
--
none 1, none 0, any 0, none 8, none 9/a
accepted <- want:0, want:1, want:2
rejected 0 <- want:3
accepted <- want:4
rejected 0 <- want:5
accepted <- want:6
rejected 0 <- want:7
accepted <- want:8
rejected 0 <- want:9
accepted <- want:10
rejected 0 <- want:11
accepted <- bar:12, bar:13, bar:14
rejected 0 <- bar:15
accepted <- split:0 void:0 bar:13, split:2 void:1 bar:14
rejected 1 <- split:2 void:3 bar:14
accepted <- split:1 bar:3 want:3
rejected 1 <- split:1 void:1 want:3
accepted <- split:3 bar:7 want:7, split:4 bar:9 want:9
rejected 1 <- split:4 bar:7 want:9, split:1 bar:10 want:3
===
atoms none 2 |1024*variant:# |, none 2 |1023*variant:# |, any 2 variant:1023, any 2 variant:0, none 2, any 2 |1024*variant:# |
wants +0, +1, +2, +4
bars +2 +3 +5
graph all
--
none 2 |1023*variant:# |, none 2
accepted <- want:0
rejected 0 <- want:1, want:2
accepted <- split:0 bar:0 want:1
rejected 1 <- split:0 bar:1 want:1, split:1 bar:0 want:3
accepted <- split:1 bar:2 want:3
===
atoms none 3 <:4094 |4094*=:# |>:4094, none 3 <:4095 |4095*>=:# |, any 3 |4096*=:# |, any 3 =:4094, any 3 =:4095, none 8 |4096*text:# |, any 8 |4096*text:# |
wants +0, +1, +2, +5, +6
bars +3 +4
graph all
--
none 3 <:4094 |4094*=:# |>:4094
rejected 0 <- want:0
accepted <- want:1
rejected 0 <- want:2, want:3, want:4
accepted <- split:0 bar:0 want:0
rejected 1 <- split:0 bar:1 want:0
===
atoms any 9/a text:x, any 9/b text:x, any 9/ text:x, any 9/ab text:x, any 9/|255*a| text:x, any 9/|254*a|b text:x
wants +0,-1, +4 -0
bars +2 +3 +5
graph all
--
any 9/a text:x, any 9/b text:x, any 9/ text:x, any 9/ab text:x, any 9/|255*a| text:x, any 9/|254*a|b text:x
rejected 1 <- split:0 want:0 want:0
rejected 3 <- split:0 split:1 want:0 want:0 want:0
rejected 1 <- split:2 bar:1 want:0, split:3 bar:0 want:0, split:4 bar:2 want:1
rejected 2 <- split:5 bar:2 want:1, split:0 split:4 void:0 want:1 want:0
sat <- {9/a=text:x;9/|255*a|=text:x}, {9/a=text:x;9/|255*a|=text:x;9/b=text:y}
unsat <- {9/a=text:x;9/|255*a|=text:x;9/b=text:x}, {9/a=text:x;9/|254*a|b=text:x}, {9/a=text:x;9/|255*a|=text:x;9/=text:x}
unsat <- {9/a=text:x;9/|255*a|=text:x;9/ab=text:x}, {9/a=text:x;9/|255*a|=text:x;9/|256*a|=text:x}, {9/b=text:x;9/|255*a|=text:x}
===
atoms none 8 text:|255*a|, any 8 text:|255*a|, any 8 text:|254*a|b, none 8, any 8 text:|254*a|
wants +0, +1,+2, +1,+4, +3
bars +0 +1
graph all
--
any 8 text:|255*a|, any 8 text:|254*a|b, none 8 text:|255*a|, none 8
rejected 0 <- want:0
accepted <- split:0 want:1 want:1, split:1 want:1 want:1, split:0 want:2 want:2
rejected 1 <- split:3 bar:0 want:3
accepted <- split:3 split:0 want:0 bar:0 want:3, split:0 split:2 void:2 bar:1 split:2 bar:0 want:0
rejected 5 <- split:0 split:2 void:2 bar:1 split:2 void:2 want:0
rejected 2 <- split:2 split:1 void:2 want:0 want:0
===
atoms none 8 text:|255*a|, any 8 text:|255*a|, any 8 text:|254*a|b, none 8, any 8 text:|254*a|
wants +0
graph all
--

sat <- {8=text:|256*a|}
unsat <- {8=text:|255*a|}
sat <- {8=text:|254*a|b}, {8=text:|254*a|}, {8=text:}, {8=text:|1024*a|}
unsat <- {8=text:|1025*a|}, {}
===
atoms any 9/0 text:a
wants +0
bars .
graph all
--
|1000*any 9/# text:a, |any 9/x text:a
accepted <- |1000*split:# ||1001*bar:0 |, |1000*split:# ||1000*bar:0 |want:0
rejected 1999 <- |1000*split:# ||999*bar:0 |want:0 bar:0
rejected 1000 <- |1000*split:# |want:0 |1000*bar:0 |
rejected 1002 <- |1000*split:# ||2*bar:0 |want:0 |998*bar:0 |
rejected 1500 <- |1000*split:# ||500*bar:0 |todo |500*bar:0 |
rejected 2000 <- |1000*split:# ||1000*bar:0 |
rejected 2001 <- |1000*split:# ||1001*bar:0 ||2*todo |
rejected 999 <- |999*split:# |split:1001 |1001*bar:0 |
===
atoms any 0 variant:0, none 3, any 0 variant:0
graph all
--

unfit <-
===
atoms any 0 variant:0 variant:1, any 0 variant:1 variant:0, none 0 variant:0 variant:1, any 0 variant:0, any 9/a text:x, any 9/b text:x
wants +5
bars -5
graph all, any
goal 1
--

rejected 0 <-
===
atoms any 0 variant:0
graph value 0 variant:1
--

unfit <-
===
atoms any 0 variant:0
graph all, value 0 variant:0, in 0 variant:0 variant:0
--

unfit <-
===
atoms any 0
graph key 0
--

unfit <-
===
atoms none 0
graph key 0
--

rejected 0 <-
===
atoms any 0 variant:0
wants +1
graph all
--

unfit <-
===
atoms any 0 variant:0
wants +0 +0,-0 -4294967295
graph all
--

unfit <-
===
atoms any 0 variant:0
bars +0 -1
graph all
--

unfit <-
===
bars +0
graph all
--

unfit <-
===
graph all
goal 1
--

unfit <-
===
wants .
--

unfit <-
===
atoms any 1 variant:0
graph all
--

unfit <-
===
atoms any 2 variant:1024
graph all
--

unfit <-
===
atoms any 8 text:|256*a|
graph all
--

unfit <-
===
atoms any 3 |4097*=:# |
graph all
--

unfit <-
===
atoms any 0 variant:0 variant:1, any 0 variant:1 variant:2, none 0 variant:2 variant:3, any 0 variant:4 variant:0
wants +0 +1 +2, +0 -1 +3, -0 -2 -3, -0 -1 -2, +0 -2 -3
graph all
--
any 0 variant:0 variant:1, any 0 variant:1 variant:2, none 0 variant:2 variant:3, any 0 variant:4 variant:0
accepted <- split:3 split:0 want:2 want:4 split:2 want:3 split:1 want:1 want:0
rejected 7 <- split:3 split:0 want:2 want:4 split:3 want:3 split:1 want:1 want:0
rejected 8 <- split:3 split:0 want:2 want:4 split:2 want:3 split:1 want:1 goal
===
atoms any 0 variant:0 variant:1, any 0 variant:1 variant:2, none 0 variant:2 variant:3, any 0 variant:4 variant:0
wants +0 +1 +2, +1 -2 -3
bars +1,+2,-3 +1,-2,-3
graph all
--
any 0 variant:0, any 0 variant:1, any 0 variant:2, any 0 variant:3, any 0 variant:4
accepted <- split:4 want:1 split:0 want:1 split:1 bar:0 split:2 bar:1 want:0
rejected 9 <- split:4 want:1 split:0 want:1 split:1 bar:0 split:2 bar:1 split:0
rejected 5 <- split:4 want:1 split:0 want:1 split:1 void:4 split:2 bar:1 want:0
===
atoms any 9/a text:x, any 9/b text:x, any 9/c text:x
wants -0 +1 -2, -0 -1 +2, +0 +1 +2, -0 -1 -2
bars -0,-1,+2 -0,+1,-2 -0,+1,+2 +0,-1,-2
graph all
--
any 9/a text:x, any 9/b text:x, any 9/c text:x
accepted <- split:1 split:2 split:0 want:3 bar:2 split:0 want:1 bar:1 split:2 split:0 want:0 bar:0 split:0 bar:3 want:2
rejected 3 <- split:1 split:2 split:1 want:3 bar:2 split:0 want:1 bar:1 split:2 split:0 want:0 bar:0 split:0 bar:3 want:2
rejected 8 <- split:1 split:2 split:0 want:3 bar:2 split:0 want:1 bar:1 void:1 split:0 want:0 bar:0 split:0 bar:3 want:2
===
atoms any 9/a text:x, any 9/b text:x, any 9/c text:x, any 9/ab text:x
bars +0,-1,+2 +0,-1,-2 +0,+1,+2 +1,-2,-3 -0,-1,+2 -1,-2,+3 -0,+1,+2 -0,-2,-3 +1,-2,+3
graph all
--
any 9/a text:x, any 9/b text:x, any 9/c text:x, any 9/ab text:x
accepted <- split:2 split:0 split:1 bar:2 bar:0 split:1 bar:6 bar:4 split:1 split:3 bar:8 bar:3 split:3 bar:5 split:0 bar:1 bar:7
rejected 16 <- split:2 split:0 split:1 bar:2 bar:0 split:1 bar:6 bar:4 split:1 split:3 bar:8 bar:3 split:3 split:2 split:0 bar:1 bar:7
rejected 5 <- split:2 split:0 split:1 bar:2 bar:0 todo bar:6 bar:4 split:1 split:3 bar:8 bar:3 split:3 bar:5 split:0 bar:1 bar:7
===
atoms any 9/a text:x, none 9/a text:x, any 9/b text:x text:y, none 9/b text:y
wants +1 -2 +3, +0 +1 -3, -0 +1 -2, -0 +1 +2, +0 +1 +2, +0 -1 -2, +0 -1 +2
graph all
--
any 9/a text:x, none 9/a text:x, any 9/b text:x text:y, none 9/b text:y
accepted <- split:2 split:1 want:5 split:0 want:2 split:3 want:1 want:0 split:0 want:3 split:1 want:6 want:4
rejected 9 <- split:2 split:1 want:5 split:0 want:2 split:3 want:1 want:0 split:2 want:3 split:1 want:6 want:4
rejected 6 <- split:2 split:1 want:5 split:0 want:2 split:3 want:0 want:0 split:0 want:3 split:1 want:6 want:4
===
atoms any 9/a text:x, any 9/a text:y, none 9/b
graph value 9/a text:x, value 9/a text:y, key 9/b, any, any, any, all, edge +0 3, edge +2 3, edge -0 4, edge +1 4, edge +0 5, edge -2 5, edge +3 6, edge +4 6, edge +5 6
goal 6
--
any 9/a text:x, any 9/a text:y, none 9/b
accepted <- split:0 goal split:2 goal goal
rejected 5 <- split:0 split:2 split:2 goal goal
rejected 1 <- split:0 todo split:2 goal goal
===
atoms any 0 variant:0 variant:1, any 0 variant:1 variant:2, none 0, any 9/a text:x
bars -0,-2,+3 -0,+2,-3 -0,+2,+3
graph in 0 variant:0 variant:1, in 0 variant:1 variant:2, key 0, value 9/a text:x, any, any, any, all, edge -0 4, edge +1 4, edge -2 4, edge +0 5, edge +2 5, edge +3 5, edge -0 6, edge -1 6, edge -2 6, edge +4 7, edge +5 7, edge +6 7
goal 7
--
any 0 variant:0 variant:1, any 0 variant:1 variant:2, none 0, any 9/a text:x
accepted <- split:2 split:0 split:1 goal goal split:3 bar:2 bar:1 split:3 bar:0 goal
rejected 6 <- split:2 split:0 split:1 split:3 goal split:3 bar:2 bar:1 split:3 bar:0 goal
rejected 3 <- split:2 split:1 split:1 goal goal split:3 bar:2 bar:1 split:3 bar:0 goal
===
atoms any 4 >:12, none 4 <:15, any 4 =:10 =:13 =:20, none 4 !=:14
wants +1 -2 +3, -0 -1 +3
bars -0,-1,-2 +0,-1,-2
graph all
--
any 4 >:12, none 4 <:15, any 4 =:10 =:13 =:20, none 4 !=:14
accepted <- split:1 want:1 split:2 want:0 split:0 bar:1 bar:0
rejected 3 <- split:1 want:1 split:3 want:0 split:0 bar:1 bar:0
accepted <- split:1 want:1 split:2 want:0 split:3 bar:1 bar:0
===
atoms any 3 >:5, any 3 <:7, any 8 text:a, none 8 text:b
wants +0 -1 -2, -0 +1 +2, -0 +1 -3, +0 +2 +3
bars +1,-2,+3 +0,+1,+2 +0,+1,-3 -0,-1,+3
graph all
--
any 8 text:b, any 8 text:a, any 3 >=:6, any 3 =:6, none 8, none 3
accepted <- split:1 split:5 split:3 bar:1 split:2 want:2 want:0 bar:3 split:2 split:4 split:3 split:0 bar:2 bar:0 want:1 split:3 bar:2 want:1 split:4 split:0 want:3 split:5 bar:0 bar:3 want:3
rejected 22 <- split:1 split:5 split:3 bar:1 split:2 want:2 want:0 bar:3 split:2 split:4 split:3 split:0 bar:2 bar:0 want:1 split:3 bar:2 want:1 split:4 split:0 split:2 split:5 bar:0 bar:3 want:3
rejected 14 <- split:1 split:5 split:3 bar:1 split:2 want:2 want:0 bar:3 split:2 split:4 split:3 split:0 bar:2 bar:0 want:2 split:3 bar:2 want:1 split:4 split:0 want:3 split:5 bar:0 bar:3 want:3
===
atoms any 0 variant:0, any 4 >=:15, any 9/a text:x, any 8 text:x
wants -0 -1 +3, +0 +1 +3, -0 +1 +3
bars -0,+2,+3 -0,+2,-3 +0,+1,+3
graph value 0 variant:0, value 4 >=:15, value 9/a text:x, value 8 text:x, any, any, any, all, edge +1 4, edge -2 4, edge -3 4, edge +1 5, edge +2 5, edge -3 5, edge +0 6, edge -1 6, edge +2 6, edge +4 7, edge +5 7, edge +6 7
goal 7
--
any 0 variant:0, any 4 >=:15, any 9/a text:x, any 8 text:x
accepted <- split:1 split:3 split:0 bar:2 split:2 bar:0 goal split:0 want:0 split:2 bar:1 goal split:3 split:2 goal goal split:0 want:2 want:1
rejected 10 <- split:1 split:3 split:0 bar:2 split:2 bar:0 goal split:0 split:0 split:2 bar:1 goal split:3 split:2 goal goal split:0 want:2 want:1
rejected 17 <- split:1 split:3 split:0 bar:2 split:2 bar:0 goal split:0 want:0 split:2 bar:1 split:1 split:3 split:2 goal goal split:0 want:2 want:1";

// Atoms, with commas between them.
fn atoms(alloc: Global, words: &str) -> Option<Seq<Atom>> {
    let mut atoms = Seq::new(alloc);
    for words in words.split_terminator(", ") {
        atoms.push(atom(alloc, words)?).ok()?;
    }
    Some(atoms)
}

fn literal(word: &str) -> Option<Literal> {
    let (want, number) = match word.strip_prefix('-') {
        Some(number) => (false, number),
        None => (true, word.strip_prefix('+')?),
    };
    Some(Literal {
        atom: number.parse().ok()?,
        want,
    })
}

fn path(alloc: Global, word: &str) -> Option<Seq<Literal>> {
    let mut path = Seq::new(alloc);
    if word == "." {
        return Some(path);
    }
    for word in word.split(',') {
        path.push(literal(word)?).ok()?;
    }
    Some(path)
}

fn paths(alloc: Global, words: &str) -> Option<Seq<Seq<Literal>>> {
    let mut paths = Seq::new(alloc);
    for word in words.split_ascii_whitespace() {
        paths.push(path(alloc, word)?).ok()?;
    }
    Some(paths)
}

// Adds wants, each its paths, with commas between them.
fn add_wants(alloc: Global, wants: &mut Seq<Seq<Seq<Literal>>>, words: &str) -> Option<()> {
    for words in words.split_terminator(", ") {
        wants.push(paths(alloc, words)?).ok()?;
    }
    Some(())
}

// The graph that calls of a builder build, none of which is refused.
fn graph(alloc: Global, calls: &str) -> Option<Graph> {
    let mut builder = Builder::new(alloc);
    for call in calls.split_terminator(", ") {
        if answer(alloc, &mut builder, call)?.starts_with('!') {
            return None;
        }
    }
    Some(builder.finish())
}

// What stands behind a word at the start of a line, or nothing where no line starts so.
fn behind<'a>(lines: &'a str, word: &str) -> &'a str {
    for line in lines.lines() {
        if let Some(words) = line.strip_prefix(word) {
            return words;
        }
    }
    ""
}

pub(crate) fn problem(alloc: Global, lines: &str) -> Option<Problem> {
    let mut problem = Problem {
        atoms: atoms(alloc, behind(lines, "atoms "))?,
        wants: Seq::new(alloc),
        bars: paths(alloc, behind(lines, "bars "))?,
        graph: graph(alloc, behind(lines, "graph "))?,
        goal: behind(lines, "goal ").parse().unwrap_or(0),
    };
    add_wants(alloc, &mut problem.wants, behind(lines, "wants "))?;
    Some(problem)
}

fn item(word: &str) -> Option<Item> {
    let (kind, number) = word.split_once(':').unwrap_or((word, "0"));
    let number = number.parse().ok()?;
    Some(match kind {
        "split" => Item::Split(number),
        "void" => Item::Void(number),
        "want" => Item::Want(number),
        "bar" => Item::Bar(number),
        "goal" => Item::Goal,
        "todo" => Item::Todo,
        _ => return None,
    })
}

fn certificate(alloc: Global, atom_words: &str, words: &str) -> Option<Certificate> {
    let mut items = Seq::new(alloc);
    for word in words.split_ascii_whitespace() {
        items.push(item(word)?).ok()?;
    }
    Some(Certificate {
        atoms: atoms(alloc, atom_words)?,
        items,
    })
}

fn atoms_fit(table: &KeyTable, atoms: &[Atom]) -> bool
    ensures { result ≡ list_all (atom_fits table.now) atoms.now }
{
    atoms.iter().all(|atom| table.atom_fits(atom))
}

// What both checks find a certificate to be, the second one in just the room for it.
pub(crate) fn verdict(
    alloc: Global,
    table: &KeyTable,
    problem: &Problem,
    certificate: &Certificate,
) -> Option<Verdict>
    requires { problem_fits table.now problem.now ≡ true }
{
    let atoms = certificate.atoms.as_slice();
    let items = certificate.items.as_slice();
    if !atoms_fit(table, atoms) || atoms.len() > MOST || items.len() > MOST {
        return None;
    }
    let verdict = check(alloc, table, problem, certificate).ok()?;
    let (atoms, items) = (atoms.len() as u32, items.len() as u32);
    let mut scratch = Scratch::for_sizes(alloc, atoms, items, problem.graph.count()).ok()?;
    (check_in(table, problem, certificate, &mut scratch) == verdict).then_some(verdict)
}

// What a certificate with these atoms or a payment is found to be.
fn found(
    alloc: Global,
    table: &KeyTable,
    problem: &Problem,
    atoms: &str,
    words: &str,
) -> Option<String> {
    if !problem_fits(table, problem) {
        return String::from_str(alloc, "unfit").ok();
    }
    if let Some(entries) = words.strip_prefix('{') {
        let payment = payment(alloc, entries.strip_suffix('}')?)?;
        let is_met = sat(alloc, table, problem, &payment).ok()?;
        return String::from_str(alloc, if is_met { "sat" } else { "unsat" }).ok();
    }
    match verdict(alloc, table, problem, &certificate(alloc, atoms, words)?)? {
        Verdict::Accepted => String::from_str(alloc, "accepted").ok(),
        Verdict::Rejected(item) => format!(in alloc; "rejected {item}").ok(),
    }
}

#[test]
fn certificates_are_judged(rt: HostRuntime) -> Result<(), Fail> {
    let alloc = rt.alloc();
    let table = KeyTable::from_toml(alloc, expanded(alloc, KEYS)?.as_bytes())?;
    for case in expanded(alloc, CASES)?.split("\n===\n") {
        let (text, rest) = case.split_once("\n--\n").ok_or(case)?;
        let (atoms, lines) = rest.split_once('\n').ok_or(rest)?;
        let problem = problem(alloc, text).ok_or(text)?;
        for line in lines.lines() {
            let (wanted, inputs) = line.split_once(" <-").ok_or(line)?;
            for words in inputs.trim().split(", ") {
                let found = found(alloc, &table, &problem, atoms, words).ok_or(words)?;
                assert_eq!(rt; found.as_str(), wanted, "at {words} of {text}");
            }
        }
    }
    Ok(())
}
