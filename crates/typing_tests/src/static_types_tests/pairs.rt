//! Tables over pairs of types, reckoned from the rules and not from the program.
//!
//! A block begins with a `#` and what it is of: `X` and `Y` stand for the two types, and an `@` for the place at which an
//! operator or a constant is refused. Then come rows: the types that `X` is, and a letter for each type that `Y` is, in
//! the order of `TYPES`.
//!
//! | Letter | Means |
//! |---|---|
//! | `=` | typed |
//! | a letter of `LETTERS` | typed, and what `f` returns has that type |
//! | `<`, `>` | BadCast at the last `x`, at the last `y` |
//! | `x` | BadCast at the `@` |
//! | `-` | BadOperand at the `@` |
//! | `!` | BadNullable at the `@` |

/// The types of the tables.
pub const TYPES: &str =
    "boolean byte short char int long Boolean Byte Short Character Integer Long Number Object Comparable String StringBuilder def";

/// The letters of the types, in their order.
pub const LETTERS: &str = "zbscilZBSCILNOPTUd";

/// Casts of each type to each, those that typing adds, and those that are written.
pub const CASTS: &str = "\
#Y f(X x) { return x } 1; void f(X x) { Y y = x } 1; void f(X x, Y y) { y = x } 1; void g(Y y) { } void f(X x) { g(x) } 1
boolean Boolean: =<<<<<=<<<<<<==<<=
byte: <==<==<==<=====<<=
short: <<=<==<<=<=====<<=
char: <<<===<<<===<==<<=
int: <<<<==<<<<=====<<=
long Long: <<<<<=<<<<<====<<=
Byte: <==<==<=<<<<===<<=
Short: <<=<==<<=<<<===<<=
Character: <<<===<<<=<<<==<<=
Integer: <<<<==<<<<=<===<<=
Number: <<<<<<<<<<<<==<<<=
Object: <<<<<<<<<<<<<=<<<=
Comparable: <<<<<<<<<<<<<==<<=
String: <<<<<<<<<<<<<===<=
StringBuilder: <<<<<<<<<<<<<=<<==
def: ==================
#void f(X x) { Y y = (Y)x } 1; Y f(X x) { return (Y)x } 1
boolean Boolean: =<<<<<=<<<<<<==<<=
byte short int long: <=====<========<<=
char: <=====<=====<===<=
Byte: <=====<=<<<<===<<=
Short: <=====<<=<<<===<<=
Character: <=====<<<=<<<==<<=
Integer: <=====<<<<=<===<<=
Long: <=====<<<<<====<<=
Number: ======<==<====<<<=
Object def: ==================
Comparable: <<<<<<======<===<=
String: <<<=<<<<<<<<<===<=
StringBuilder: <<<<<<<<<<<<<=<<==";

/// What a constant goes to.
pub const CONSTANTS: &str = "\
#@null
any: xxxxxx============
#@0; @1; @127
any: x=====xxxx=====xx=
#@-1; @-128
any: x==x==xxxx=====xx=
#@128; @32767
any: xx====xxxx=====xx=
#@-129; @-32768
any: xx=x==xxxx=====xx=
#@32768; @65535
any: xxx===xxxx=====xx=
#@65536; @-32769
any: xxxx==xxxx=====xx=
#@1L; @-1L
any: xxxxx=xxxxx====xx=
#@true; @false
any: =xxxxx=xxxxxx==xx=
#@'a'; @''
any: xxxxxxxxxxxxx===x=";

/// What operators on numbers give.
pub const OPERATORS: &str = "\
#x @* y; x @/ y; x @% y; x @- y
boolean Boolean Number Object Comparable String StringBuilder: -----------------d
byte short char int Byte Short Character Integer: -iiiil-iiiil-----d
long Long: -lllll-lllll-----d
def: dddddddddddddddddd
#x @+ y
boolean Boolean Number Object Comparable StringBuilder: ---------------T-d
byte short char int Byte Short Character Integer: -iiiil-iiiil---T-d
long Long: -lllll-lllll---T-d
String: TTTTTTTTTTTTTTTTTT
def: dddddddddddddddTdd
#x @<< y; x @>> y; x @>>> y
boolean Boolean Number Object Comparable String StringBuilder: -----------------d
byte short char int Byte Short Character Integer: -iiiii-iiiii-----d
long Long: -lllll-lllll-----d
def: dddddddddddddddddd";

/// What is compared.
pub const COMPARISONS: &str = "\
#x @< y; x @<= y; x @> y; x @>= y
boolean Boolean Number Object Comparable String StringBuilder: -----------------z
byte short char int long Byte Short Character Integer Long: -zzzzz-zzzzz-----z
def: zzzzzzzzzzzzzzzzzz
#x @== y; x @!= y
boolean: z-----zzzzzzzzzzzz
byte short char int long: -zzzzzzzzzzzzzzzzz
Boolean Byte Short Character Integer Long Number Object Comparable String StringBuilder def: zzzzzzzzzzzzzzzzzz
#x @=== y; x @!== y
boolean: z-----------------
byte short char int long: -zzzzz------------
Boolean Byte Short Character Integer Long Number Object Comparable String StringBuilder def: ------------------
#x @instanceof Y
boolean byte short char int long: ------------------
Boolean Byte Short Character Integer Long Number Object Comparable String StringBuilder def: ------zzzzzzzzzzz-";

/// Bits, conditions, and the common type of two.
pub const CHOICES: &str = "\
#x @& y; x @^ y; x @| y
boolean Boolean: z-----z----------d
byte short char int Byte Short Character Integer: -iiiil-iiiil-----d
long Long: -lllll-lllll-----d
Number Object Comparable String StringBuilder: -----------------d
def: dddddddddddddddddd
#x @&& y; x @|| y
boolean Boolean def: z>>>>>z>>>>>>>>>>z
byte short char int long Byte Short Character Integer Long Number Object Comparable String StringBuilder: <<<<<<<<<<<<<<<<<<
#true ? x : y
boolean: zddddddddddddddddd
byte: dbiiildddddddddddd
short: disiildddddddddddd
char: diicildddddddddddd
int: diiiildddddddddddd
long: dllllldddddddddddd
Boolean: ddddddZddddddOPddd
Byte: dddddddBddddNOPddd
Short: ddddddddSdddNOPddd
Character: dddddddddCdddOPddd
Integer: ddddddddddIdNOPddd
Long: dddddddddddLNOPddd
Number: dddddddNNdNNNOdddd
Object: ddddddOOOOOOOOOOOd
Comparable: ddddddPPPPPPdOPPdd
String: dddddddddddddOPTdd
StringBuilder: dddddddddddddOddUd
def: dddddddddddddddddd
#x @?: y
boolean byte short char int long: !!!!!!!!!!!!!!!!!!
Boolean: ddddddZddddddOPddd
Byte: dddddddBddddNOPddd
Short: ddddddddSdddNOPddd
Character: dddddddddCdddOPddd
Integer: ddddddddddIdNOPddd
Long: dddddddddddLNOPddd
Number: dddddddNNdNNNOdddd
Object: ddddddOOOOOOOOOOOd
Comparable: ddddddPPPPPPdOPPdd
String: dddddddddddddOPTdd
StringBuilder: dddddddddddddOddUd
def: dddddddddddddddddd";

/// What operators of one side give.
pub const ONE_SIDE: &str = "\
#@-y; @+y; @~y
any: -iiiil-iiiil-----d
#@!y
any: z>>>>>z>>>>>>>>>>z
#@y++; @y--; @++y; @--y
any: -bscil-BSCIL-----d";

/// Assignments with an operator.
pub const CHANGES: &str = "\
#x @*= y; x @/= y; x @%= y; x @-= y
boolean Boolean Number Object Comparable String StringBuilder: -----------------=
byte short char int long Byte Short Character Integer Long: -=====-=====-----=
def: ==================
#x @+= y
boolean Boolean Number StringBuilder: ---------------x-=
byte short int long Byte Short Character Integer Long: -=====-=====---x-=
char: -=====-=====---=-=
Object Comparable: ---------------=-=
String: ==================
def: ==================
#x @<<= y; x @>>= y; x @>>>= y
boolean Boolean Number Object Comparable String StringBuilder: -----------------=
byte short char int long Byte Short Character Integer Long: -=====-=====-----=
def: ==================
#x @&= y; x @^= y; x @|= y
boolean Boolean: =-----=----------=
byte short char int long Byte Short Character Integer Long: -=====-=====-----=
Number Object Comparable String StringBuilder: -----------------=
def: ==================";
