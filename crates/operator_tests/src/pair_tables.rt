//! Operators and casts of values of type `def`, over values of each kind.

/// Operators between two values: a block for each, with a row for each left side and a cell for each right side.
pub const PAIRS: &str = "+
c,c,c,c,c,c,T truea,c,n
c,I -14,I 293,I 58,I 2147483640,J 4999999993,T -7a,c,n
c,I 293,I 600,I 365,I -2147483349,J 5000000300,T 300a,c,n
c,I 58,I 365,I 130,I -2147483584,J 5000000065,T Aa,c,n
c,I 2147483640,I -2147483349,I -2147483584,I -2,J 7147483647,T 2147483647a,c,n
c,J 4999999993,J 5000000300,J 5000000065,J 7147483647,J 10000000000,T 5000000000a,c,n
T atrue,T a-7,T a300,T aA,T a2147483647,T a5000000000,T aa,T a[1],T anull
c,c,c,c,c,c,T [1]a,c,n
n,n,n,n,n,n,T nulla,n,n
#-
c,c,c,c,c,c,c,c,n
c,I 0,I -307,I -72,I 2147483642,J -5000000007,c,c,n
c,I 307,I 0,I 235,I -2147483347,J -4999999700,c,c,n
c,I 72,I -235,I 0,I -2147483582,J -4999999935,c,c,n
c,I -2147483642,I 2147483347,I 2147483582,I 0,J -2852516353,c,c,n
c,J 5000000007,J 4999999700,J 4999999935,J 2852516353,J 0,c,c,n
c,c,c,c,c,c,c,c,n
c,c,c,c,c,c,c,c,n
n,n,n,n,n,n,n,n,n
#*
c,c,c,c,c,c,c,c,n
c,I 49,I -2100,I -455,I -2147483641,J -35000000000,c,c,n
c,I -2100,I 90000,I 19500,I -300,J 1500000000000,c,c,n
c,I -455,I 19500,I 4225,I 2147483583,J 325000000000,c,c,n
c,I -2147483641,I -300,I 2147483583,I 1,J -7709325838709551616,c,c,n
c,J -35000000000,J 1500000000000,J 325000000000,J -7709325838709551616,J 6553255926290448384,c,c,n
c,c,c,c,c,c,c,c,n
c,c,c,c,c,c,c,c,n
n,n,n,n,n,n,n,n,n
#/
c,c,c,c,c,c,c,c,n
c,I 1,I 0,I 0,I 0,J 0,c,c,n
c,I -42,I 1,I 4,I 0,J 0,c,c,n
c,I -9,I 0,I 1,I 0,J 0,c,c,n
c,I -306783378,I 7158278,I 33038209,I 1,J 0,c,c,n
c,J -714285714,J 16666666,J 76923076,J 2,J 1,c,c,n
c,c,c,c,c,c,c,c,n
c,c,c,c,c,c,c,c,n
n,n,n,n,n,n,n,n,n
#%
c,c,c,c,c,c,c,c,n
c,I 0,I -7,I -7,I -7,J -7,c,c,n
c,I 6,I 0,I 40,I 300,J 300,c,c,n
c,I 2,I 65,I 0,I 65,J 65,c,c,n
c,I 1,I 247,I 62,I 0,J 2147483647,c,c,n
c,J 2,J 200,J 60,J 705032706,J 0,c,c,n
c,c,c,c,c,c,c,c,n
c,c,c,c,c,c,c,c,n
n,n,n,n,n,n,n,n,n
#&
true,c,c,c,c,c,c,c,n
c,I -7,I 296,I 65,I 2147483641,J 5000000000,c,c,n
c,I 296,I 300,I 0,I 300,J 0,c,c,n
c,I 65,I 0,I 65,I 65,J 0,c,c,n
c,I 2147483641,I 300,I 65,I 2147483647,J 705032704,c,c,n
c,J 5000000000,J 0,J 0,J 705032704,J 5000000000,c,c,n
c,c,c,c,c,c,c,c,n
c,c,c,c,c,c,c,c,n
n,n,n,n,n,n,n,n,n
#|
true,c,c,c,c,c,c,c,n
c,I -7,I -3,I -7,I -1,J -7,c,c,n
c,I -3,I 300,I 365,I 2147483647,J 5000000300,c,c,n
c,I -7,I 365,I 65,I 2147483647,J 5000000065,c,c,n
c,I -1,I 2147483647,I 2147483647,I 2147483647,J 6442450943,c,c,n
c,J -7,J 5000000300,J 5000000065,J 6442450943,J 5000000000,c,c,n
c,c,c,c,c,c,c,c,n
c,c,c,c,c,c,c,c,n
n,n,n,n,n,n,n,n,n
#^
false,c,c,c,c,c,c,c,n
c,I 0,I -299,I -72,I -2147483642,J -5000000007,c,c,n
c,I -299,I 0,I 365,I 2147483347,J 5000000300,c,c,n
c,I -72,I 365,I 0,I 2147483582,J 5000000065,c,c,n
c,I -2147483642,I 2147483347,I 2147483582,I 0,J 5737418239,c,c,n
c,J -5000000007,J 5000000300,J 5000000065,J 5737418239,J 0,c,c,n
c,c,c,c,c,c,c,c,n
c,c,c,c,c,c,c,c,n
n,n,n,n,n,n,n,n,n
#<<
c,c,c,c,c,c,c,c,n
c,I -234881024,I -28672,I -14,I -2147483648,I -7,c,c,n
c,I 1476395008,I 1228800,I 600,I 0,I 300,c,c,n
c,I -2113929216,I 266240,I 130,I -2147483648,I 65,c,c,n
c,I -33554432,I -4096,I -2,I -2147483648,I 2147483647,c,c,n
c,J 0,J 6854478632857894912,J 10000000000,J 0,J 5000000000,c,c,n
c,c,c,c,c,c,c,c,n
c,c,c,c,c,c,c,c,n
n,n,n,n,n,n,n,n,n
#>>
c,c,c,c,c,c,c,c,n
c,I -1,I -1,I -4,I -1,I -7,c,c,n
c,I 0,I 0,I 150,I 0,I 300,c,c,n
c,I 0,I 0,I 32,I 0,I 65,c,c,n
c,I 63,I 524287,I 1073741823,I 0,I 2147483647,c,c,n
c,J 0,J 0,J 2500000000,J 0,J 5000000000,c,c,n
c,c,c,c,c,c,c,c,n
c,c,c,c,c,c,c,c,n
n,n,n,n,n,n,n,n,n
#>>>
c,c,c,c,c,c,c,c,n
c,I 127,I 1048575,I 2147483644,I 1,I -7,c,c,n
c,I 0,I 0,I 150,I 0,I 300,c,c,n
c,I 0,I 0,I 32,I 0,I 65,c,c,n
c,I 63,I 524287,I 1073741823,I 0,I 2147483647,c,c,n
c,J 0,J 0,J 2500000000,J 0,J 5000000000,c,c,n
c,c,c,c,c,c,c,c,n
c,c,c,c,c,c,c,c,n
n,n,n,n,n,n,n,n,n
#<
c,c,c,c,c,c,c,c,n
c,false,true,true,true,true,c,c,n
c,false,false,false,true,true,c,c,n
c,false,true,false,true,true,c,c,n
c,false,false,false,false,true,c,c,n
c,false,false,false,false,false,c,c,n
c,c,c,c,c,c,c,c,n
c,c,c,c,c,c,c,c,n
n,n,n,n,n,n,n,n,n
#<=
c,c,c,c,c,c,c,c,n
c,true,true,true,true,true,c,c,n
c,false,true,false,true,true,c,c,n
c,false,true,true,true,true,c,c,n
c,false,false,false,true,true,c,c,n
c,false,false,false,false,true,c,c,n
c,c,c,c,c,c,c,c,n
c,c,c,c,c,c,c,c,n
n,n,n,n,n,n,n,n,n
#>
c,c,c,c,c,c,c,c,n
c,false,false,false,false,false,c,c,n
c,true,false,true,false,false,c,c,n
c,true,false,false,false,false,c,c,n
c,true,true,true,false,false,c,c,n
c,true,true,true,true,false,c,c,n
c,c,c,c,c,c,c,c,n
c,c,c,c,c,c,c,c,n
n,n,n,n,n,n,n,n,n
#>=
c,c,c,c,c,c,c,c,n
c,true,false,false,false,false,c,c,n
c,true,true,true,false,false,c,c,n
c,true,false,true,false,false,c,c,n
c,true,true,true,true,false,c,c,n
c,true,true,true,true,true,c,c,n
c,c,c,c,c,c,c,c,n
c,c,c,c,c,c,c,c,n
n,n,n,n,n,n,n,n,n
#==
true,false,false,false,false,false,false,false,false
false,true,false,false,false,false,false,false,false
false,false,true,false,false,false,false,false,false
false,false,false,true,false,false,false,false,false
false,false,false,false,true,false,false,false,false
false,false,false,false,false,true,false,false,false
false,false,false,false,false,false,true,false,false
false,false,false,false,false,false,false,true,false
false,false,false,false,false,false,false,false,true
#!=
false,true,true,true,true,true,true,true,true
true,false,true,true,true,true,true,true,true
true,true,false,true,true,true,true,true,true
true,true,true,false,true,true,true,true,true
true,true,true,true,false,true,true,true,true
true,true,true,true,true,false,true,true,true
true,true,true,true,true,true,false,true,true
true,true,true,true,true,true,true,false,true
true,true,true,true,true,true,true,true,false
#&&
true,r,r,r,r,r,r,r,n
l,l,l,l,l,l,l,l,l
l,l,l,l,l,l,l,l,l
l,l,l,l,l,l,l,l,l
l,l,l,l,l,l,l,l,l
l,l,l,l,l,l,l,l,l
l,l,l,l,l,l,l,l,l
l,l,l,l,l,l,l,l,l
n,n,n,n,n,n,n,n,n
#||
true,true,true,true,true,true,true,true,true
l,l,l,l,l,l,l,l,l
l,l,l,l,l,l,l,l,l
l,l,l,l,l,l,l,l,l
l,l,l,l,l,l,l,l,l
l,l,l,l,l,l,l,l,l
l,l,l,l,l,l,l,l,l
l,l,l,l,l,l,l,l,l
n,n,n,n,n,n,n,n,n";

/// Casts: a block for each value, with its class; behind each type what a cast comes to, or two casts, the second of which is written.
pub const CASTS: &str = "true; Boolean
CharSequence: c
Iterable: c
List: c
Map: c
int[]: c
def[]: c
#(byte)-7; Byte
CharSequence: c
Iterable: c
List: c
Map: c
int[]: c
def[]: c
#(short)300; Short
CharSequence: c
Iterable: c
List: c
Map: c
int[]: c
def[]: c
#(char)65; Character
CharSequence: c
Iterable: c
List: c
Map: c
int[]: c
def[]: c
#2147483647; Integer
CharSequence: c
Iterable: c
List: c
Map: c
int[]: c
def[]: c
#5000000000L; Long
CharSequence: c
Iterable: c
List: c
Map: c
int[]: c
def[]: c
#'a'; String
boolean: c
byte: c
short: c
char: c, C 97
int: c
long: c
Boolean: c
Byte: c
Short: c
Character: c, C 97
Integer: c
Long: c
Number: c
Object: T a
Comparable: T a
CharSequence: T a
String: T a
StringBuilder: c
Iterable: c
Collection: c
List: c
ArrayList: c
Set: c
HashSet: c
Map: c
Iterator: c
RuntimeException: c
int[]: c
long[]: c
def[]: c
String[]: c
Object[]: c
#[1]; ArrayList
boolean: c
byte: c
short: c
char: c
int: c
long: c
Boolean: c
Byte: c
Short: c
Character: c
Integer: c
Long: c
Number: c
Object: another value
Comparable: c
CharSequence: c
String: c
StringBuilder: c
Iterable: another value
Collection: another value
List: another value
ArrayList: another value
Set: c
HashSet: c
Map: c
Iterator: c
RuntimeException: c
int[]: c
long[]: c
def[]: c
String[]: c
Object[]: c
#null; 
boolean: n
byte: n
short: n
char: n
int: n
long: n
Boolean: null
Byte: null
Short: null
Character: null
Integer: null
Long: null
Number: null
Object: null
Comparable: null
CharSequence: null
String: null
StringBuilder: null
Iterable: null
Collection: null
List: null
ArrayList: null
Set: null
HashSet: null
Map: null
Iterator: null
RuntimeException: null
int[]: null
long[]: null
def[]: null
String[]: null
Object[]: null
#[1: 2]; HashMap
boolean: c
byte: c
short: c
char: c
int: c
long: c
Boolean: c
Byte: c
Short: c
Character: c
Integer: c
Long: c
Number: c
Object: another value
Comparable: c
CharSequence: c
String: c
StringBuilder: c
Iterable: c
Collection: c
List: c
ArrayList: c
Set: c
HashSet: c
Map: another value
Iterator: c
RuntimeException: c
int[]: c
long[]: c
def[]: c
String[]: c
Object[]: c
#new LinkedHashSet(); LinkedHashSet
boolean: c
byte: c
short: c
char: c
int: c
long: c
Boolean: c
Byte: c
Short: c
Character: c
Integer: c
Long: c
Number: c
Object: another value
Comparable: c
CharSequence: c
String: c
StringBuilder: c
Iterable: another value
Collection: another value
List: c
ArrayList: c
Set: another value
HashSet: another value
Map: c
Iterator: c
RuntimeException: c
int[]: c
long[]: c
def[]: c
String[]: c
Object[]: c
#[:].keySet(); Set
boolean: c
byte: c
short: c
char: c
int: c
long: c
Boolean: c
Byte: c
Short: c
Character: c
Integer: c
Long: c
Number: c
Object: another value
Comparable: c
CharSequence: c
String: c
StringBuilder: c
Iterable: another value
Collection: another value
List: c
ArrayList: c
Set: another value
HashSet: c
Map: c
Iterator: c
RuntimeException: c
int[]: c
long[]: c
def[]: c
String[]: c
Object[]: c
#[1].iterator(); Iterator
boolean: c
byte: c
short: c
char: c
int: c
long: c
Boolean: c
Byte: c
Short: c
Character: c
Integer: c
Long: c
Number: c
Object: another value
Comparable: c
CharSequence: c
String: c
StringBuilder: c
Iterable: c
Collection: c
List: c
ArrayList: c
Set: c
HashSet: c
Map: c
Iterator: another value
RuntimeException: c
int[]: c
long[]: c
def[]: c
String[]: c
Object[]: c
#new StringBuilder('b'); StringBuilder
boolean: c
byte: c
short: c
char: c
int: c
long: c
Boolean: c
Byte: c
Short: c
Character: c
Integer: c
Long: c
Number: c
Object: another value
Comparable: c
CharSequence: another value
String: c
StringBuilder: another value
Iterable: c
Collection: c
List: c
ArrayList: c
Set: c
HashSet: c
Map: c
Iterator: c
RuntimeException: c
int[]: c
long[]: c
def[]: c
String[]: c
Object[]: c
#new ArithmeticException(); ArithmeticException
boolean: c
byte: c
short: c
char: c
int: c
long: c
Boolean: c
Byte: c
Short: c
Character: c
Integer: c
Long: c
Number: c
Object: another value
Comparable: c
CharSequence: c
String: c
StringBuilder: c
Iterable: c
Collection: c
List: c
ArrayList: c
Set: c
HashSet: c
Map: c
Iterator: c
RuntimeException: another value
int[]: c
long[]: c
def[]: c
String[]: c
Object[]: c
#new int[] {1}; int[]
boolean: c
byte: c
short: c
char: c
int: c
long: c
Boolean: c
Byte: c
Short: c
Character: c
Integer: c
Long: c
Number: c
Object: another value
Comparable: c
CharSequence: c
String: c
StringBuilder: c
Iterable: c
Collection: c
List: c
ArrayList: c
Set: c
HashSet: c
Map: c
Iterator: c
RuntimeException: c
int[]: another value
long[]: c
def[]: c
String[]: c
Object[]: c
#new String[1]; String[]
boolean: c
byte: c
short: c
char: c
int: c
long: c
Boolean: c
Byte: c
Short: c
Character: c
Integer: c
Long: c
Number: c
Object: another value
Comparable: c
CharSequence: c
String: c
StringBuilder: c
Iterable: c
Collection: c
List: c
ArrayList: c
Set: c
HashSet: c
Map: c
Iterator: c
RuntimeException: c
int[]: c
long[]: c
def[]: c
String[]: another value
Object[]: c
#'ab'; String
boolean: c
byte: c
short: c
char: c
int: c
long: c
Boolean: c
Byte: c
Short: c
Character: c
Integer: c
Long: c
Number: c
Object: T ab
Comparable: T ab
CharSequence: T ab
String: T ab
StringBuilder: c
Iterable: c
Collection: c
List: c
ArrayList: c
Set: c
HashSet: c
Map: c
Iterator: c
RuntimeException: c
int[]: c
long[]: c
def[]: c
String[]: c
Object[]: c";

/// Operators before and behind one value, conditions, and assignments that calculate.
pub const STEPS: &str = "# def x = true;
-x: thrown ClassCastException Cannot apply [-] to [Boolean]
~x: thrown ClassCastException Cannot apply [~] to [Boolean]
+x: thrown ClassCastException Cannot apply [+] to [Boolean], !x: false, x ? 1 : 2: I 1
if (x) { return 1 } return 2: I 1, while (x) { return 1 } return 2: I 1, for (; x; ) { return 1 } return 2: I 1
do { if (x) { break } } while (x); return 1: I 1
++x: thrown ClassCastException Cannot apply [+] to [Boolean] and [Integer]
x++: thrown ClassCastException Cannot apply [+] to [Boolean] and [Integer]
--x: thrown ClassCastException Cannot apply [-] to [Boolean] and [Integer]
x--: thrown ClassCastException Cannot apply [-] to [Boolean] and [Integer]
x += 3; x: thrown ClassCastException Cannot apply [+] to [Boolean] and [Integer]
x -= 3; x: thrown ClassCastException Cannot apply [-] to [Boolean] and [Integer]
x *= 3; x: thrown ClassCastException Cannot apply [*] to [Boolean] and [Integer]
x /= 3; x: thrown ClassCastException Cannot apply [/] to [Boolean] and [Integer]
x %= 3; x: thrown ClassCastException Cannot apply [%] to [Boolean] and [Integer]
x &= 3; x: thrown ClassCastException Cannot apply [&] to [Boolean] and [Integer]
x |= 3; x: thrown ClassCastException Cannot apply [|] to [Boolean] and [Integer]
x ^= 3; x: thrown ClassCastException Cannot apply [^] to [Boolean] and [Integer]
x <<= 3; x: thrown ClassCastException Cannot apply [<<] to [Boolean] and [Integer]
x >>= 3; x: thrown ClassCastException Cannot apply [>>] to [Boolean] and [Integer]
x >>>= 3; x: thrown ClassCastException Cannot apply [>>>] to [Boolean] and [Integer]
# def x = (byte)-7;
-x: I 7, ~x: I 6, +x: I -7, !x: thrown ClassCastException Cannot cast from [Byte] to [boolean]
x ? 1 : 2: thrown ClassCastException Cannot cast from [Byte] to [boolean]
if (x) { return 1 } return 2: thrown ClassCastException Cannot cast from [Byte] to [boolean]
while (x) { return 1 } return 2: thrown ClassCastException Cannot cast from [Byte] to [boolean]
for (; x; ) { return 1 } return 2: thrown ClassCastException Cannot cast from [Byte] to [boolean]
do { if (x) { break } } while (x); return 1: thrown ClassCastException Cannot cast from [Byte] to [boolean], ++x: I -6
x++: B -7, x++; x: I -6, --x: I -8, x--: B -7, x--; x: I -8, x += 3; x: I -4, x -= 3; x: I -10, x *= 3; x: I -21
x /= 3; x: I -2, x %= 3; x: I -1, x &= 3; x: I 1, x |= 3; x: I -5, x ^= 3; x: I -6, x <<= 3; x: I -56
x >>= 3; x: I -1, x >>>= 3; x: I 536870911
# def x = (short)300;
-x: I -300, ~x: I -301, +x: I 300, !x: thrown ClassCastException Cannot cast from [Short] to [boolean]
x ? 1 : 2: thrown ClassCastException Cannot cast from [Short] to [boolean]
if (x) { return 1 } return 2: thrown ClassCastException Cannot cast from [Short] to [boolean]
while (x) { return 1 } return 2: thrown ClassCastException Cannot cast from [Short] to [boolean]
for (; x; ) { return 1 } return 2: thrown ClassCastException Cannot cast from [Short] to [boolean]
do { if (x) { break } } while (x); return 1: thrown ClassCastException Cannot cast from [Short] to [boolean]
++x: I 301, x++: S 300, x++; x: I 301, --x: I 299, x--: S 300, x--; x: I 299, x += 3; x: I 303, x -= 3; x: I 297
x *= 3; x: I 900, x /= 3; x: I 100, x %= 3; x: I 0, x &= 3; x: I 0, x |= 3; x: I 303, x ^= 3; x: I 303
x <<= 3; x: I 2400, x >>= 3; x: I 37, x >>>= 3; x: I 37
# def x = (char)65;
-x: I -65, ~x: I -66, +x: I 65, !x: thrown ClassCastException Cannot cast from [Character] to [boolean]
x ? 1 : 2: thrown ClassCastException Cannot cast from [Character] to [boolean]
if (x) { return 1 } return 2: thrown ClassCastException Cannot cast from [Character] to [boolean]
while (x) { return 1 } return 2: thrown ClassCastException Cannot cast from [Character] to [boolean]
for (; x; ) { return 1 } return 2: thrown ClassCastException Cannot cast from [Character] to [boolean]
do { if (x) { break } } while (x); return 1: thrown ClassCastException Cannot cast from [Character] to [boolean]
++x: I 66, x++: C 65, x++; x: I 66, --x: I 64, x--: C 65, x--; x: I 64, x += 3; x: I 68, x -= 3; x: I 62
x *= 3; x: I 195, x /= 3; x: I 21, x %= 3; x: I 2, x &= 3; x: I 1, x |= 3; x: I 67, x ^= 3; x: I 66, x <<= 3; x: I 520
x >>= 3; x: I 8, x >>>= 3; x: I 8
# def x = 2147483647;
-x: I -2147483647, ~x: I -2147483648, +x: I 2147483647
!x: thrown ClassCastException Cannot cast from [Integer] to [boolean]
x ? 1 : 2: thrown ClassCastException Cannot cast from [Integer] to [boolean]
if (x) { return 1 } return 2: thrown ClassCastException Cannot cast from [Integer] to [boolean]
while (x) { return 1 } return 2: thrown ClassCastException Cannot cast from [Integer] to [boolean]
for (; x; ) { return 1 } return 2: thrown ClassCastException Cannot cast from [Integer] to [boolean]
do { if (x) { break } } while (x); return 1: thrown ClassCastException Cannot cast from [Integer] to [boolean]
++x: I -2147483648, x++: I 2147483647, x++; x: I -2147483648, --x: I 2147483646, x--: I 2147483647
x--; x: I 2147483646, x += 3; x: I -2147483646, x -= 3; x: I 2147483644, x *= 3; x: I 2147483645
x /= 3; x: I 715827882, x %= 3; x: I 1, x &= 3; x: I 3, x |= 3; x: I 2147483647, x ^= 3; x: I 2147483644
x <<= 3; x: I -8, x >>= 3; x: I 268435455, x >>>= 3; x: I 268435455
# def x = 5000000000L;
-x: J -5000000000, ~x: J -5000000001, +x: J 5000000000
!x: thrown ClassCastException Cannot cast from [Long] to [boolean]
x ? 1 : 2: thrown ClassCastException Cannot cast from [Long] to [boolean]
if (x) { return 1 } return 2: thrown ClassCastException Cannot cast from [Long] to [boolean]
while (x) { return 1 } return 2: thrown ClassCastException Cannot cast from [Long] to [boolean]
for (; x; ) { return 1 } return 2: thrown ClassCastException Cannot cast from [Long] to [boolean]
do { if (x) { break } } while (x); return 1: thrown ClassCastException Cannot cast from [Long] to [boolean]
++x: J 5000000001, x++: J 5000000000, x++; x: J 5000000001, --x: J 4999999999, x--: J 5000000000, x--; x: J 4999999999
x += 3; x: J 5000000003, x -= 3; x: J 4999999997, x *= 3; x: J 15000000000, x /= 3; x: J 1666666666, x %= 3; x: J 2
x &= 3; x: J 0, x |= 3; x: J 5000000003, x ^= 3; x: J 5000000003, x <<= 3; x: J 40000000000, x >>= 3; x: J 625000000
x >>>= 3; x: J 625000000
# def x = 'a';
-x: thrown ClassCastException Cannot apply [-] to [String], ~x: thrown ClassCastException Cannot apply [~] to [String]
+x: thrown ClassCastException Cannot apply [+] to [String]
!x: thrown ClassCastException Cannot cast from [String] to [boolean]
x ? 1 : 2: thrown ClassCastException Cannot cast from [String] to [boolean]
if (x) { return 1 } return 2: thrown ClassCastException Cannot cast from [String] to [boolean]
while (x) { return 1 } return 2: thrown ClassCastException Cannot cast from [String] to [boolean]
for (; x; ) { return 1 } return 2: thrown ClassCastException Cannot cast from [String] to [boolean]
do { if (x) { break } } while (x); return 1: thrown ClassCastException Cannot cast from [String] to [boolean]
++x: T a1, x++: T a, x++; x: T a1, --x: thrown ClassCastException Cannot apply [-] to [String] and [Integer]
x--: thrown ClassCastException Cannot apply [-] to [String] and [Integer], x += 3; x: T a3
x -= 3; x: thrown ClassCastException Cannot apply [-] to [String] and [Integer]
x *= 3; x: thrown ClassCastException Cannot apply [*] to [String] and [Integer]
x /= 3; x: thrown ClassCastException Cannot apply [/] to [String] and [Integer]
x %= 3; x: thrown ClassCastException Cannot apply [%] to [String] and [Integer]
x &= 3; x: thrown ClassCastException Cannot apply [&] to [String] and [Integer]
x |= 3; x: thrown ClassCastException Cannot apply [|] to [String] and [Integer]
x ^= 3; x: thrown ClassCastException Cannot apply [^] to [String] and [Integer]
x <<= 3; x: thrown ClassCastException Cannot apply [<<] to [String] and [Integer]
x >>= 3; x: thrown ClassCastException Cannot apply [>>] to [String] and [Integer]
x >>>= 3; x: thrown ClassCastException Cannot apply [>>>] to [String] and [Integer]
# def x = [1];
-x: thrown ClassCastException Cannot apply [-] to [ArrayList]
~x: thrown ClassCastException Cannot apply [~] to [ArrayList]
+x: thrown ClassCastException Cannot apply [+] to [ArrayList]
!x: thrown ClassCastException Cannot cast from [ArrayList] to [boolean]
x ? 1 : 2: thrown ClassCastException Cannot cast from [ArrayList] to [boolean]
if (x) { return 1 } return 2: thrown ClassCastException Cannot cast from [ArrayList] to [boolean]
while (x) { return 1 } return 2: thrown ClassCastException Cannot cast from [ArrayList] to [boolean]
for (; x; ) { return 1 } return 2: thrown ClassCastException Cannot cast from [ArrayList] to [boolean]
do { if (x) { break } } while (x); return 1: thrown ClassCastException Cannot cast from [ArrayList] to [boolean]
++x: thrown ClassCastException Cannot apply [+] to [ArrayList] and [Integer]
x++: thrown ClassCastException Cannot apply [+] to [ArrayList] and [Integer]
--x: thrown ClassCastException Cannot apply [-] to [ArrayList] and [Integer]
x--: thrown ClassCastException Cannot apply [-] to [ArrayList] and [Integer]
x += 3; x: thrown ClassCastException Cannot apply [+] to [ArrayList] and [Integer]
x -= 3; x: thrown ClassCastException Cannot apply [-] to [ArrayList] and [Integer]
x *= 3; x: thrown ClassCastException Cannot apply [*] to [ArrayList] and [Integer]
x /= 3; x: thrown ClassCastException Cannot apply [/] to [ArrayList] and [Integer]
x %= 3; x: thrown ClassCastException Cannot apply [%] to [ArrayList] and [Integer]
x &= 3; x: thrown ClassCastException Cannot apply [&] to [ArrayList] and [Integer]
x |= 3; x: thrown ClassCastException Cannot apply [|] to [ArrayList] and [Integer]
x ^= 3; x: thrown ClassCastException Cannot apply [^] to [ArrayList] and [Integer]
x <<= 3; x: thrown ClassCastException Cannot apply [<<] to [ArrayList] and [Integer]
x >>= 3; x: thrown ClassCastException Cannot apply [>>] to [ArrayList] and [Integer]
x >>>= 3; x: thrown ClassCastException Cannot apply [>>>] to [ArrayList] and [Integer]
# def x = null;
-x: thrown NullPointerException, ~x: thrown NullPointerException, +x: thrown NullPointerException
!x: thrown NullPointerException, x ? 1 : 2: thrown NullPointerException
if (x) { return 1 } return 2: thrown NullPointerException
while (x) { return 1 } return 2: thrown NullPointerException
for (; x; ) { return 1 } return 2: thrown NullPointerException
do { if (x) { break } } while (x); return 1: thrown NullPointerException, ++x: thrown NullPointerException
x++: thrown NullPointerException, --x: thrown NullPointerException, x--: thrown NullPointerException
x += 3; x: thrown NullPointerException, x -= 3; x: thrown NullPointerException, x *= 3; x: thrown NullPointerException
x /= 3; x: thrown NullPointerException, x %= 3; x: thrown NullPointerException, x &= 3; x: thrown NullPointerException
x |= 3; x: thrown NullPointerException, x ^= 3; x: thrown NullPointerException
x <<= 3; x: thrown NullPointerException, x >>= 3; x: thrown NullPointerException
x >>>= 3; x: thrown NullPointerException";
