//! Boxes: what is declared, and then expressions and what they give.

/// Casts of each box to each type that it goes to.
pub const UNBOXED: &str = "# Boolean x = true;
boolean y = x; y: true, (boolean)x: true, Boolean y = x; y: true, (Boolean)x: true, Object y = x; y: true
(Object)x: true, Comparable y = x; y: true, (Comparable)x: true, def y = x; y: true, (def)x: true
# Byte x = (byte)-128;
byte y = x; y: B -128, short y = x; y: S -128, int y = x; y: I -128, long y = x; y: J -128, (byte)x: B -128
(short)x: S -128, (char)x: C 65408, (int)x: I -128, (long)x: J -128, Byte y = x; y: B -128, (Byte)x: B -128
Number y = x; y: B -128, (Number)x: B -128, Object y = x; y: B -128, (Object)x: B -128, Comparable y = x; y: B -128
(Comparable)x: B -128, def y = x; y: B -128, (def)x: B -128
# Short x = (short)-300;
short y = x; y: S -300, int y = x; y: I -300, long y = x; y: J -300, (byte)x: B -44, (short)x: S -300
(char)x: C 65236, (int)x: I -300, (long)x: J -300, Short y = x; y: S -300, (Short)x: S -300, Number y = x; y: S -300
(Number)x: S -300, Object y = x; y: S -300, (Object)x: S -300, Comparable y = x; y: S -300, (Comparable)x: S -300
def y = x; y: S -300, (def)x: S -300
# Character x = (char)65535;
char y = x; y: C 65535, int y = x; y: I 65535, long y = x; y: J 65535, (byte)x: B -1, (short)x: S -1
(char)x: C 65535, (int)x: I 65535, (long)x: J 65535, Character y = x; y: C 65535, (Character)x: C 65535
Object y = x; y: C 65535, (Object)x: C 65535, Comparable y = x; y: C 65535, (Comparable)x: C 65535
def y = x; y: C 65535, (def)x: C 65535
# Integer x = -2147483648;
int y = x; y: I -2147483648, long y = x; y: J -2147483648, (byte)x: B 0, (short)x: S 0, (char)x: C 0
(int)x: I -2147483648, (long)x: J -2147483648, Integer y = x; y: I -2147483648, (Integer)x: I -2147483648
Number y = x; y: I -2147483648, (Number)x: I -2147483648, Object y = x; y: I -2147483648, (Object)x: I -2147483648
Comparable y = x; y: I -2147483648, (Comparable)x: I -2147483648, def y = x; y: I -2147483648, (def)x: I -2147483648
# Integer x = 65;
int y = x; y: I 65, long y = x; y: J 65, (byte)x: B 65, (short)x: S 65, (char)x: C 65, (int)x: I 65, (long)x: J 65
Integer y = x; y: I 65, (Integer)x: I 65, Number y = x; y: I 65, (Number)x: I 65, Object y = x; y: I 65
(Object)x: I 65, Comparable y = x; y: I 65, (Comparable)x: I 65, def y = x; y: I 65, (def)x: I 65
# Long x = 4294967297L;
long y = x; y: J 4294967297, (byte)x: B 1, (short)x: S 1, (char)x: C 1, (int)x: I 1, (long)x: J 4294967297
Long y = x; y: J 4294967297, (Long)x: J 4294967297, Number y = x; y: J 4294967297, (Number)x: J 4294967297
Object y = x; y: J 4294967297, (Object)x: J 4294967297, Comparable y = x; y: J 4294967297
(Comparable)x: J 4294967297, def y = x; y: J 4294967297, (def)x: J 4294967297";

/// Casts of each primitive to each type of references that it goes to.
pub const BOXED: &str = "# boolean x = true;
Boolean y = x; y: true, (Boolean)x: true, Object y = x; y: true, Comparable y = x; y: true, def y = x; y: true
# byte x = (byte)-128;
Byte y = x; y: B -128, Short y = x; y: S -128, Integer y = x; y: I -128, Long y = x; y: J -128, (Byte)x: B -128
(Short)x: S -128, (Character)x: C 65408, (Integer)x: I -128, (Long)x: J -128, Number y = x; y: B -128
Object y = x; y: B -128, Comparable y = x; y: B -128, def y = x; y: B -128
# short x = (short)-300;
Short y = x; y: S -300, Integer y = x; y: I -300, Long y = x; y: J -300, (Byte)x: B -44, (Short)x: S -300
(Character)x: C 65236, (Integer)x: I -300, (Long)x: J -300, Number y = x; y: S -300, Object y = x; y: S -300
Comparable y = x; y: S -300, def y = x; y: S -300
# char x = (char)65535;
Character y = x; y: C 65535, Integer y = x; y: I 65535, Long y = x; y: J 65535, (Byte)x: B -1, (Short)x: S -1
(Character)x: C 65535, (Integer)x: I 65535, (Long)x: J 65535, Object y = x; y: C 65535, Comparable y = x; y: C 65535
def y = x; y: C 65535
# int x = -2147483648;
Integer y = x; y: I -2147483648, Long y = x; y: J -2147483648, (Byte)x: B 0, (Short)x: S 0, (Character)x: C 0
(Integer)x: I -2147483648, (Long)x: J -2147483648, Number y = x; y: I -2147483648, Object y = x; y: I -2147483648
Comparable y = x; y: I -2147483648, def y = x; y: I -2147483648
# int x = 65;
Integer y = x; y: I 65, Long y = x; y: J 65, (Byte)x: B 65, (Short)x: S 65, (Character)x: C 65, (Integer)x: I 65
(Long)x: J 65, Number y = x; y: I 65, Object y = x; y: I 65, Comparable y = x; y: I 65, def y = x; y: I 65
# long x = 4294967297L;
Long y = x; y: J 4294967297, (Byte)x: B 1, (Short)x: S 1, (Character)x: C 1, (Integer)x: I 1, (Long)x: J 4294967297
Number y = x; y: J 4294967297, Object y = x; y: J 4294967297, Comparable y = x; y: J 4294967297
def y = x; y: J 4294967297";

/// Casts of what is in a box, whose class is found when the script runs.
pub const FOUND: &str = "# def x = true;
boolean y = x; y: true, (boolean)x: true
byte y = x; y: thrown ClassCastException Cannot cast from [Boolean] to [byte]
(byte)x: thrown ClassCastException Cannot cast from [Boolean] to [byte]
short y = x; y: thrown ClassCastException Cannot cast from [Boolean] to [short]
(short)x: thrown ClassCastException Cannot cast from [Boolean] to [short]
char y = x; y: thrown ClassCastException Cannot cast from [Boolean] to [char]
(char)x: thrown ClassCastException Cannot cast from [Boolean] to [char]
int y = x; y: thrown ClassCastException Cannot cast from [Boolean] to [int]
(int)x: thrown ClassCastException Cannot cast from [Boolean] to [int]
long y = x; y: thrown ClassCastException Cannot cast from [Boolean] to [long]
(long)x: thrown ClassCastException Cannot cast from [Boolean] to [long], Boolean y = x; y: true, (Boolean)x: true
Byte y = x; y: thrown ClassCastException Cannot cast from [Boolean] to [Byte]
(Byte)x: thrown ClassCastException Cannot cast from [Boolean] to [Byte]
Short y = x; y: thrown ClassCastException Cannot cast from [Boolean] to [Short]
(Short)x: thrown ClassCastException Cannot cast from [Boolean] to [Short]
Character y = x; y: thrown ClassCastException Cannot cast from [Boolean] to [Character]
(Character)x: thrown ClassCastException Cannot cast from [Boolean] to [Character]
Integer y = x; y: thrown ClassCastException Cannot cast from [Boolean] to [Integer]
(Integer)x: thrown ClassCastException Cannot cast from [Boolean] to [Integer]
Long y = x; y: thrown ClassCastException Cannot cast from [Boolean] to [Long]
(Long)x: thrown ClassCastException Cannot cast from [Boolean] to [Long]
Number y = x; y: thrown ClassCastException Cannot cast from [Boolean] to [Number]
(Number)x: thrown ClassCastException Cannot cast from [Boolean] to [Number], Object y = x; y: true, (Object)x: true
Comparable y = x; y: true, (Comparable)x: true
String y = x; y: thrown ClassCastException Cannot cast from [Boolean] to [String]
(String)x: thrown ClassCastException Cannot cast from [Boolean] to [String]
StringBuilder y = x; y: thrown ClassCastException Cannot cast from [Boolean] to [StringBuilder]
(StringBuilder)x: thrown ClassCastException Cannot cast from [Boolean] to [StringBuilder]
# Object x = true;
(boolean)x: true, (byte)x: thrown ClassCastException Cannot cast from [Boolean] to [byte]
(short)x: thrown ClassCastException Cannot cast from [Boolean] to [short]
(char)x: thrown ClassCastException Cannot cast from [Boolean] to [char]
(int)x: thrown ClassCastException Cannot cast from [Boolean] to [int]
(long)x: thrown ClassCastException Cannot cast from [Boolean] to [long], (Boolean)x: true
(Byte)x: thrown ClassCastException Cannot cast from [Boolean] to [Byte]
(Short)x: thrown ClassCastException Cannot cast from [Boolean] to [Short]
(Character)x: thrown ClassCastException Cannot cast from [Boolean] to [Character]
(Integer)x: thrown ClassCastException Cannot cast from [Boolean] to [Integer]
(Long)x: thrown ClassCastException Cannot cast from [Boolean] to [Long]
(Number)x: thrown ClassCastException Cannot cast from [Boolean] to [Number], (Comparable)x: true
(String)x: thrown ClassCastException Cannot cast from [Boolean] to [String]
(StringBuilder)x: thrown ClassCastException Cannot cast from [Boolean] to [StringBuilder]
# Comparable x = true;
(Boolean)x: true, (Byte)x: thrown ClassCastException Cannot cast from [Boolean] to [Byte]
(Short)x: thrown ClassCastException Cannot cast from [Boolean] to [Short]
(Character)x: thrown ClassCastException Cannot cast from [Boolean] to [Character]
(Integer)x: thrown ClassCastException Cannot cast from [Boolean] to [Integer]
(Long)x: thrown ClassCastException Cannot cast from [Boolean] to [Long]
(String)x: thrown ClassCastException Cannot cast from [Boolean] to [String]
# def x = (byte)-128;
boolean y = x; y: thrown ClassCastException Cannot cast from [Byte] to [boolean]
(boolean)x: thrown ClassCastException Cannot cast from [Byte] to [boolean], byte y = x; y: B -128, (byte)x: B -128
short y = x; y: S -128, (short)x: S -128, char y = x; y: thrown ClassCastException Cannot cast from [Byte] to [char]
(char)x: C 65408, int y = x; y: I -128, (int)x: I -128, long y = x; y: J -128, (long)x: J -128
Boolean y = x; y: thrown ClassCastException Cannot cast from [Byte] to [Boolean]
(Boolean)x: thrown ClassCastException Cannot cast from [Byte] to [Boolean], Byte y = x; y: B -128, (Byte)x: B -128
Short y = x; y: S -128, (Short)x: S -128
Character y = x; y: thrown ClassCastException Cannot cast from [Byte] to [Character], (Character)x: C 65408
Integer y = x; y: I -128, (Integer)x: I -128, Long y = x; y: J -128, (Long)x: J -128, Number y = x; y: B -128
(Number)x: B -128, Object y = x; y: B -128, (Object)x: B -128, Comparable y = x; y: B -128, (Comparable)x: B -128
String y = x; y: thrown ClassCastException Cannot cast from [Byte] to [String]
(String)x: thrown ClassCastException Cannot cast from [Byte] to [String]
StringBuilder y = x; y: thrown ClassCastException Cannot cast from [Byte] to [StringBuilder]
(StringBuilder)x: thrown ClassCastException Cannot cast from [Byte] to [StringBuilder]
# Object x = (byte)-128;
(boolean)x: thrown ClassCastException Cannot cast from [Byte] to [boolean], (byte)x: B -128, (short)x: S -128
(char)x: C 65408, (int)x: I -128, (long)x: J -128
(Boolean)x: thrown ClassCastException Cannot cast from [Byte] to [Boolean], (Byte)x: B -128, (Short)x: S -128
(Character)x: C 65408, (Integer)x: I -128, (Long)x: J -128, (Number)x: B -128, (Comparable)x: B -128
(String)x: thrown ClassCastException Cannot cast from [Byte] to [String]
(StringBuilder)x: thrown ClassCastException Cannot cast from [Byte] to [StringBuilder]
# Number x = (byte)-128;
(boolean)x: thrown ClassCastException Cannot cast from [Byte] to [boolean], (byte)x: B -128, (short)x: S -128
(char)x: C 65408, (int)x: I -128, (long)x: J -128, (Byte)x: B -128, (Short)x: S -128, (Integer)x: I -128
(Long)x: J -128
# Comparable x = (byte)-128;
(Boolean)x: thrown ClassCastException Cannot cast from [Byte] to [Boolean], (Byte)x: B -128, (Short)x: S -128
(Character)x: C 65408, (Integer)x: I -128, (Long)x: J -128
(String)x: thrown ClassCastException Cannot cast from [Byte] to [String]
# def x = (short)-300;
boolean y = x; y: thrown ClassCastException Cannot cast from [Short] to [boolean]
(boolean)x: thrown ClassCastException Cannot cast from [Short] to [boolean]
byte y = x; y: thrown ClassCastException Cannot cast from [Short] to [byte], (byte)x: B -44, short y = x; y: S -300
(short)x: S -300, char y = x; y: thrown ClassCastException Cannot cast from [Short] to [char], (char)x: C 65236
int y = x; y: I -300, (int)x: I -300, long y = x; y: J -300, (long)x: J -300
Boolean y = x; y: thrown ClassCastException Cannot cast from [Short] to [Boolean]
(Boolean)x: thrown ClassCastException Cannot cast from [Short] to [Boolean]
Byte y = x; y: thrown ClassCastException Cannot cast from [Short] to [Byte], (Byte)x: B -44, Short y = x; y: S -300
(Short)x: S -300, Character y = x; y: thrown ClassCastException Cannot cast from [Short] to [Character]
(Character)x: C 65236, Integer y = x; y: I -300, (Integer)x: I -300, Long y = x; y: J -300, (Long)x: J -300
Number y = x; y: S -300, (Number)x: S -300, Object y = x; y: S -300, (Object)x: S -300, Comparable y = x; y: S -300
(Comparable)x: S -300, String y = x; y: thrown ClassCastException Cannot cast from [Short] to [String]
(String)x: thrown ClassCastException Cannot cast from [Short] to [String]
StringBuilder y = x; y: thrown ClassCastException Cannot cast from [Short] to [StringBuilder]
(StringBuilder)x: thrown ClassCastException Cannot cast from [Short] to [StringBuilder]
# Object x = (short)-300;
(boolean)x: thrown ClassCastException Cannot cast from [Short] to [boolean], (byte)x: B -44, (short)x: S -300
(char)x: C 65236, (int)x: I -300, (long)x: J -300
(Boolean)x: thrown ClassCastException Cannot cast from [Short] to [Boolean], (Byte)x: B -44, (Short)x: S -300
(Character)x: C 65236, (Integer)x: I -300, (Long)x: J -300, (Number)x: S -300, (Comparable)x: S -300
(String)x: thrown ClassCastException Cannot cast from [Short] to [String]
(StringBuilder)x: thrown ClassCastException Cannot cast from [Short] to [StringBuilder]
# Number x = (short)-300;
(boolean)x: thrown ClassCastException Cannot cast from [Short] to [boolean], (byte)x: B -44, (short)x: S -300
(char)x: C 65236, (int)x: I -300, (long)x: J -300, (Byte)x: B -44, (Short)x: S -300, (Integer)x: I -300
(Long)x: J -300
# Comparable x = (short)-300;
(Boolean)x: thrown ClassCastException Cannot cast from [Short] to [Boolean], (Byte)x: B -44, (Short)x: S -300
(Character)x: C 65236, (Integer)x: I -300, (Long)x: J -300
(String)x: thrown ClassCastException Cannot cast from [Short] to [String]
# def x = (char)97;
boolean y = x; y: thrown ClassCastException Cannot cast from [Character] to [boolean]
(boolean)x: thrown ClassCastException Cannot cast from [Character] to [boolean]
byte y = x; y: thrown ClassCastException Cannot cast from [Character] to [byte], (byte)x: B 97
short y = x; y: thrown ClassCastException Cannot cast from [Character] to [short], (short)x: S 97
char y = x; y: C 97, (char)x: C 97, int y = x; y: I 97, (int)x: I 97, long y = x; y: J 97, (long)x: J 97
Boolean y = x; y: thrown ClassCastException Cannot cast from [Character] to [Boolean]
(Boolean)x: thrown ClassCastException Cannot cast from [Character] to [Boolean]
Byte y = x; y: thrown ClassCastException Cannot cast from [Character] to [Byte], (Byte)x: B 97
Short y = x; y: thrown ClassCastException Cannot cast from [Character] to [Short], (Short)x: S 97
Character y = x; y: C 97, (Character)x: C 97, Integer y = x; y: I 97, (Integer)x: I 97, Long y = x; y: J 97
(Long)x: J 97, Number y = x; y: thrown ClassCastException Cannot cast from [Character] to [Number]
(Number)x: thrown ClassCastException Cannot cast from [Character] to [Number], Object y = x; y: C 97
(Object)x: C 97, Comparable y = x; y: C 97, (Comparable)x: C 97
String y = x; y: thrown ClassCastException Cannot cast from [Character] to [String], (String)x: T a
StringBuilder y = x; y: thrown ClassCastException Cannot cast from [Character] to [StringBuilder]
(StringBuilder)x: thrown ClassCastException Cannot cast from [Character] to [StringBuilder]
# Object x = (char)97;
(boolean)x: thrown ClassCastException Cannot cast from [Character] to [boolean], (byte)x: B 97, (short)x: S 97
(char)x: C 97, (int)x: I 97, (long)x: J 97
(Boolean)x: thrown ClassCastException Cannot cast from [Character] to [Boolean], (Byte)x: B 97, (Short)x: S 97
(Character)x: C 97, (Integer)x: I 97, (Long)x: J 97
(Number)x: thrown ClassCastException Cannot cast from [Character] to [Number], (Comparable)x: C 97, (String)x: T a
(StringBuilder)x: thrown ClassCastException Cannot cast from [Character] to [StringBuilder]
# Comparable x = (char)97;
(Boolean)x: thrown ClassCastException Cannot cast from [Character] to [Boolean], (Byte)x: B 97, (Short)x: S 97
(Character)x: C 97, (Integer)x: I 97, (Long)x: J 97, (String)x: T a
# def x = 65;
boolean y = x; y: thrown ClassCastException Cannot cast from [Integer] to [boolean]
(boolean)x: thrown ClassCastException Cannot cast from [Integer] to [boolean]
byte y = x; y: thrown ClassCastException Cannot cast from [Integer] to [byte], (byte)x: B 65
short y = x; y: thrown ClassCastException Cannot cast from [Integer] to [short], (short)x: S 65
char y = x; y: thrown ClassCastException Cannot cast from [Integer] to [char], (char)x: C 65, int y = x; y: I 65
(int)x: I 65, long y = x; y: J 65, (long)x: J 65
Boolean y = x; y: thrown ClassCastException Cannot cast from [Integer] to [Boolean]
(Boolean)x: thrown ClassCastException Cannot cast from [Integer] to [Boolean]
Byte y = x; y: thrown ClassCastException Cannot cast from [Integer] to [Byte], (Byte)x: B 65
Short y = x; y: thrown ClassCastException Cannot cast from [Integer] to [Short], (Short)x: S 65
Character y = x; y: thrown ClassCastException Cannot cast from [Integer] to [Character], (Character)x: C 65
Integer y = x; y: I 65, (Integer)x: I 65, Long y = x; y: J 65, (Long)x: J 65, Number y = x; y: I 65, (Number)x: I 65
Object y = x; y: I 65, (Object)x: I 65, Comparable y = x; y: I 65, (Comparable)x: I 65
String y = x; y: thrown ClassCastException Cannot cast from [Integer] to [String]
(String)x: thrown ClassCastException Cannot cast from [Integer] to [String]
StringBuilder y = x; y: thrown ClassCastException Cannot cast from [Integer] to [StringBuilder]
(StringBuilder)x: thrown ClassCastException Cannot cast from [Integer] to [StringBuilder]
# Object x = 65;
(boolean)x: thrown ClassCastException Cannot cast from [Integer] to [boolean], (byte)x: B 65, (short)x: S 65
(char)x: C 65, (int)x: I 65, (long)x: J 65
(Boolean)x: thrown ClassCastException Cannot cast from [Integer] to [Boolean], (Byte)x: B 65, (Short)x: S 65
(Character)x: C 65, (Integer)x: I 65, (Long)x: J 65, (Number)x: I 65, (Comparable)x: I 65
(String)x: thrown ClassCastException Cannot cast from [Integer] to [String]
(StringBuilder)x: thrown ClassCastException Cannot cast from [Integer] to [StringBuilder]
# Number x = 65;
(boolean)x: thrown ClassCastException Cannot cast from [Integer] to [boolean], (byte)x: B 65, (short)x: S 65
(char)x: C 65, (int)x: I 65, (long)x: J 65, (Byte)x: B 65, (Short)x: S 65, (Integer)x: I 65, (Long)x: J 65
# Comparable x = 65;
(Boolean)x: thrown ClassCastException Cannot cast from [Integer] to [Boolean], (Byte)x: B 65, (Short)x: S 65
(Character)x: C 65, (Integer)x: I 65, (Long)x: J 65
(String)x: thrown ClassCastException Cannot cast from [Integer] to [String]
# def x = 4294967297L;
boolean y = x; y: thrown ClassCastException Cannot cast from [Long] to [boolean]
(boolean)x: thrown ClassCastException Cannot cast from [Long] to [boolean]
byte y = x; y: thrown ClassCastException Cannot cast from [Long] to [byte], (byte)x: B 1
short y = x; y: thrown ClassCastException Cannot cast from [Long] to [short], (short)x: S 1
char y = x; y: thrown ClassCastException Cannot cast from [Long] to [char], (char)x: C 1
int y = x; y: thrown ClassCastException Cannot cast from [Long] to [int], (int)x: I 1, long y = x; y: J 4294967297
(long)x: J 4294967297, Boolean y = x; y: thrown ClassCastException Cannot cast from [Long] to [Boolean]
(Boolean)x: thrown ClassCastException Cannot cast from [Long] to [Boolean]
Byte y = x; y: thrown ClassCastException Cannot cast from [Long] to [Byte], (Byte)x: B 1
Short y = x; y: thrown ClassCastException Cannot cast from [Long] to [Short], (Short)x: S 1
Character y = x; y: thrown ClassCastException Cannot cast from [Long] to [Character], (Character)x: C 1
Integer y = x; y: thrown ClassCastException Cannot cast from [Long] to [Integer], (Integer)x: I 1
Long y = x; y: J 4294967297, (Long)x: J 4294967297, Number y = x; y: J 4294967297, (Number)x: J 4294967297
Object y = x; y: J 4294967297, (Object)x: J 4294967297, Comparable y = x; y: J 4294967297
(Comparable)x: J 4294967297, String y = x; y: thrown ClassCastException Cannot cast from [Long] to [String]
(String)x: thrown ClassCastException Cannot cast from [Long] to [String]
StringBuilder y = x; y: thrown ClassCastException Cannot cast from [Long] to [StringBuilder]
(StringBuilder)x: thrown ClassCastException Cannot cast from [Long] to [StringBuilder]
# Object x = 4294967297L;
(boolean)x: thrown ClassCastException Cannot cast from [Long] to [boolean], (byte)x: B 1, (short)x: S 1
(char)x: C 1, (int)x: I 1, (long)x: J 4294967297
(Boolean)x: thrown ClassCastException Cannot cast from [Long] to [Boolean], (Byte)x: B 1, (Short)x: S 1
(Character)x: C 1, (Integer)x: I 1, (Long)x: J 4294967297, (Number)x: J 4294967297, (Comparable)x: J 4294967297
(String)x: thrown ClassCastException Cannot cast from [Long] to [String]
(StringBuilder)x: thrown ClassCastException Cannot cast from [Long] to [StringBuilder]
# Number x = 4294967297L;
(boolean)x: thrown ClassCastException Cannot cast from [Long] to [boolean], (byte)x: B 1, (short)x: S 1
(char)x: C 1, (int)x: I 1, (long)x: J 4294967297, (Byte)x: B 1, (Short)x: S 1, (Integer)x: I 1
(Long)x: J 4294967297
# Comparable x = 4294967297L;
(Boolean)x: thrown ClassCastException Cannot cast from [Long] to [Boolean], (Byte)x: B 1, (Short)x: S 1
(Character)x: C 1, (Integer)x: I 1, (Long)x: J 4294967297
(String)x: thrown ClassCastException Cannot cast from [Long] to [String]";

/// Null where a box may stand.
pub const ABSENT: &str = "# Boolean x = null;
boolean y = x; y: thrown NullPointerException, (boolean)x: thrown NullPointerException, Boolean y = x; y: null
Object y = x; y: null, Comparable y = x; y: null, def y = x; y: null, x == null: true, x != null: false
x === null: true, x instanceof Object: false, x == x: true, !x: thrown NullPointerException
x && true: thrown NullPointerException, true || x: true, false || x: thrown NullPointerException
x ? 1 : 2: thrown NullPointerException, if (x) { return 1 } return 2: thrown NullPointerException
x & true: thrown NullPointerException, x |= true: thrown NullPointerException, x == false: false, x == true: false
'' + x: T null
# Byte x = null;
byte y = x; y: thrown NullPointerException, (byte)x: thrown NullPointerException
short y = x; y: thrown NullPointerException, (short)x: thrown NullPointerException
(char)x: thrown NullPointerException, int y = x; y: thrown NullPointerException, (int)x: thrown NullPointerException
long y = x; y: thrown NullPointerException, (long)x: thrown NullPointerException, Byte y = x; y: null
Object y = x; y: null, Comparable y = x; y: null, def y = x; y: null, x == null: true, x != null: false
x === null: true, x instanceof Object: false, x == x: true, -x: thrown NullPointerException
+x: thrown NullPointerException, ~x: thrown NullPointerException, x + 1: thrown NullPointerException
1 + x: thrown NullPointerException, x < 1: thrown NullPointerException, x << 1: thrown NullPointerException
1 << x: thrown NullPointerException, x++: thrown NullPointerException, --x: thrown NullPointerException
x += 1: thrown NullPointerException, x == 1: false, x == 0: false, '' + x: T null
# Short x = null;
(byte)x: thrown NullPointerException, short y = x; y: thrown NullPointerException
(short)x: thrown NullPointerException, (char)x: thrown NullPointerException
int y = x; y: thrown NullPointerException, (int)x: thrown NullPointerException
long y = x; y: thrown NullPointerException, (long)x: thrown NullPointerException, Short y = x; y: null
Object y = x; y: null, Comparable y = x; y: null, def y = x; y: null, x == null: true, x != null: false
x === null: true, x instanceof Object: false, x == x: true, -x: thrown NullPointerException
+x: thrown NullPointerException, ~x: thrown NullPointerException, x + 1: thrown NullPointerException
1 + x: thrown NullPointerException, x < 1: thrown NullPointerException, x << 1: thrown NullPointerException
1 << x: thrown NullPointerException, x++: thrown NullPointerException, --x: thrown NullPointerException
x += 1: thrown NullPointerException, x == 1: false, x == 0: false, '' + x: T null
# Character x = null;
(byte)x: thrown NullPointerException, (short)x: thrown NullPointerException
char y = x; y: thrown NullPointerException, (char)x: thrown NullPointerException
int y = x; y: thrown NullPointerException, (int)x: thrown NullPointerException
long y = x; y: thrown NullPointerException, (long)x: thrown NullPointerException, Character y = x; y: null
Object y = x; y: null, Comparable y = x; y: null, def y = x; y: null, x == null: true, x != null: false
x === null: true, x instanceof Object: false, x == x: true, -x: thrown NullPointerException
+x: thrown NullPointerException, ~x: thrown NullPointerException, x + 1: thrown NullPointerException
1 + x: thrown NullPointerException, x < 1: thrown NullPointerException, x << 1: thrown NullPointerException
1 << x: thrown NullPointerException, x++: thrown NullPointerException, --x: thrown NullPointerException
x += 1: thrown NullPointerException, x == 1: false, x == 0: false, '' + x: T null
# Integer x = null;
(byte)x: thrown NullPointerException, (short)x: thrown NullPointerException, (char)x: thrown NullPointerException
int y = x; y: thrown NullPointerException, (int)x: thrown NullPointerException
long y = x; y: thrown NullPointerException, (long)x: thrown NullPointerException, Integer y = x; y: null
Object y = x; y: null, Comparable y = x; y: null, def y = x; y: null, x == null: true, x != null: false
x === null: true, x instanceof Object: false, x == x: true, -x: thrown NullPointerException
+x: thrown NullPointerException, ~x: thrown NullPointerException, x + 1: thrown NullPointerException
1 + x: thrown NullPointerException, x < 1: thrown NullPointerException, x << 1: thrown NullPointerException
1 << x: thrown NullPointerException, x++: thrown NullPointerException, --x: thrown NullPointerException
x += 1: thrown NullPointerException, x == 1: false, x == 0: false, '' + x: T null
# Long x = null;
(byte)x: thrown NullPointerException, (short)x: thrown NullPointerException, (char)x: thrown NullPointerException
(int)x: thrown NullPointerException, long y = x; y: thrown NullPointerException
(long)x: thrown NullPointerException, Long y = x; y: null, Object y = x; y: null, Comparable y = x; y: null
def y = x; y: null, x == null: true, x != null: false, x === null: true, x instanceof Object: false, x == x: true
-x: thrown NullPointerException, +x: thrown NullPointerException, ~x: thrown NullPointerException
x + 1: thrown NullPointerException, 1 + x: thrown NullPointerException, x < 1: thrown NullPointerException
x << 1: thrown NullPointerException, 1 << x: thrown NullPointerException, x++: thrown NullPointerException
--x: thrown NullPointerException, x += 1: thrown NullPointerException, x == 1: false, x == 0: false, '' + x: T null";

/// Operators over each pair of boxes of numbers.
pub const PAIRS: &str = "# Byte a = (byte)-128; Byte b = (byte)-1;
a * b: I 128, a / b: I 128, a % b: I 0, a + b: I -129, a - b: I -127, a << b: I 0, a >> b: I -1, a >>> b: I 1
a & b: I -128, a ^ b: I 127, a | b: I -1, a < b: true, a <= b: true, a > b: false, a >= b: false, a == b: false
a != b: true, a *= b: B -128, a /= b: B -128, a %= b: B 0, a += b: B 127, a -= b: B -127, a <<= b: B 0
a >>= b: B -1, a >>>= b: B 1, a &= b: B -128, a ^= b: B 127, a |= b: B -1
# Byte a = (byte)-128; Short b = (short)7;
a * b: I -896, a / b: I -18, a % b: I -2, a + b: I -121, a - b: I -135, a << b: I -16384, a >> b: I -1
a >>> b: I 33554431, a & b: I 0, a ^ b: I -121, a | b: I -121, a < b: true, a <= b: true, a > b: false
a >= b: false, a == b: false, a != b: true, a *= b: B -128, a /= b: B -18, a %= b: B -2, a += b: B -121
a -= b: B 121, a <<= b: B 0, a >>= b: B -1, a >>>= b: B -1, a &= b: B 0, a ^= b: B -121, a |= b: B -121
# Byte a = (byte)-128; Character b = (char)3;
a * b: I -384, a / b: I -42, a % b: I -2, a + b: I -125, a - b: I -131, a << b: I -1024, a >> b: I -16
a >>> b: I 536870896, a & b: I 0, a ^ b: I -125, a | b: I -125, a < b: true, a <= b: true, a > b: false
a >= b: false, a == b: false, a != b: true, a *= b: B -128, a /= b: B -42, a %= b: B -2, a += b: B -125
a -= b: B 125, a <<= b: B 0, a >>= b: B -16, a >>>= b: B -16, a &= b: B 0, a ^= b: B -125, a |= b: B -125
# Byte a = (byte)-128; Integer b = 0;
a * b: I 0, a / b: thrown ArithmeticException / by zero, a % b: thrown ArithmeticException / by zero, a + b: I -128
a - b: I -128, a << b: I -128, a >> b: I -128, a >>> b: I -128, a & b: I 0, a ^ b: I -128, a | b: I -128
a < b: true, a <= b: true, a > b: false, a >= b: false, a == b: false, a != b: true, a *= b: B 0
a /= b: thrown ArithmeticException / by zero, a %= b: thrown ArithmeticException / by zero, a += b: B -128
a -= b: B -128, a <<= b: B -128, a >>= b: B -128, a >>>= b: B -128, a &= b: B 0, a ^= b: B -128, a |= b: B -128
# Byte a = (byte)-128; Long b = -1L;
a * b: J 128, a / b: J 128, a % b: J 0, a + b: J -129, a - b: J -127, a << b: I 0, a >> b: I -1, a >>> b: I 1
a & b: J -128, a ^ b: J 127, a | b: J -1, a < b: true, a <= b: true, a > b: false, a >= b: false, a == b: false
a != b: true, a *= b: B -128, a /= b: B -128, a %= b: B 0, a += b: B 127, a -= b: B -127, a <<= b: B 0
a >>= b: B -1, a >>>= b: B 1, a &= b: B -128, a ^= b: B 127, a |= b: B -1
# Short a = (short)-300; Byte b = (byte)-1;
a * b: I 300, a / b: I 300, a % b: I 0, a + b: I -301, a - b: I -299, a << b: I 0, a >> b: I -1, a >>> b: I 1
a & b: I -300, a ^ b: I 299, a | b: I -1, a < b: true, a <= b: true, a > b: false, a >= b: false, a == b: false
a != b: true, a *= b: S 300, a /= b: S 300, a %= b: S 0, a += b: S -301, a -= b: S -299, a <<= b: S 0, a >>= b: S -1
a >>>= b: S 1, a &= b: S -300, a ^= b: S 299, a |= b: S -1
# Short a = (short)-300; Short b = (short)7;
a * b: I -2100, a / b: I -42, a % b: I -6, a + b: I -293, a - b: I -307, a << b: I -38400, a >> b: I -3
a >>> b: I 33554429, a & b: I 4, a ^ b: I -301, a | b: I -297, a < b: true, a <= b: true, a > b: false
a >= b: false, a == b: false, a != b: true, a *= b: S -2100, a /= b: S -42, a %= b: S -6, a += b: S -293
a -= b: S -307, a <<= b: S 27136, a >>= b: S -3, a >>>= b: S -3, a &= b: S 4, a ^= b: S -301, a |= b: S -297
# Short a = (short)-300; Character b = (char)3;
a * b: I -900, a / b: I -100, a % b: I 0, a + b: I -297, a - b: I -303, a << b: I -2400, a >> b: I -38
a >>> b: I 536870874, a & b: I 0, a ^ b: I -297, a | b: I -297, a < b: true, a <= b: true, a > b: false
a >= b: false, a == b: false, a != b: true, a *= b: S -900, a /= b: S -100, a %= b: S 0, a += b: S -297
a -= b: S -303, a <<= b: S -2400, a >>= b: S -38, a >>>= b: S -38, a &= b: S 0, a ^= b: S -297, a |= b: S -297
# Short a = (short)-300; Integer b = 0;
a * b: I 0, a / b: thrown ArithmeticException / by zero, a % b: thrown ArithmeticException / by zero, a + b: I -300
a - b: I -300, a << b: I -300, a >> b: I -300, a >>> b: I -300, a & b: I 0, a ^ b: I -300, a | b: I -300
a < b: true, a <= b: true, a > b: false, a >= b: false, a == b: false, a != b: true, a *= b: S 0
a /= b: thrown ArithmeticException / by zero, a %= b: thrown ArithmeticException / by zero, a += b: S -300
a -= b: S -300, a <<= b: S -300, a >>= b: S -300, a >>>= b: S -300, a &= b: S 0, a ^= b: S -300, a |= b: S -300
# Short a = (short)-300; Long b = -1L;
a * b: J 300, a / b: J 300, a % b: J 0, a + b: J -301, a - b: J -299, a << b: I 0, a >> b: I -1, a >>> b: I 1
a & b: J -300, a ^ b: J 299, a | b: J -1, a < b: true, a <= b: true, a > b: false, a >= b: false, a == b: false
a != b: true, a *= b: S 300, a /= b: S 300, a %= b: S 0, a += b: S -301, a -= b: S -299, a <<= b: S 0, a >>= b: S -1
a >>>= b: S 1, a &= b: S -300, a ^= b: S 299, a |= b: S -1
# Character a = (char)65535; Byte b = (byte)-1;
a * b: I -65535, a / b: I -65535, a % b: I 0, a + b: I 65534, a - b: I 65536, a << b: I -2147483648, a >> b: I 0
a >>> b: I 0, a & b: I 65535, a ^ b: I -65536, a | b: I -1, a < b: false, a <= b: false, a > b: true, a >= b: true
a == b: false, a != b: true, a *= b: C 1, a /= b: C 1, a %= b: C 0, a += b: C 65534, a -= b: C 0, a <<= b: C 0
a >>= b: C 0, a >>>= b: C 0, a &= b: C 65535, a ^= b: C 0, a |= b: C 65535
# Character a = (char)65535; Short b = (short)7;
a * b: I 458745, a / b: I 9362, a % b: I 1, a + b: I 65542, a - b: I 65528, a << b: I 8388480, a >> b: I 511
a >>> b: I 511, a & b: I 7, a ^ b: I 65528, a | b: I 65535, a < b: false, a <= b: false, a > b: true, a >= b: true
a == b: false, a != b: true, a *= b: C 65529, a /= b: C 9362, a %= b: C 1, a += b: C 6, a -= b: C 65528
a <<= b: C 65408, a >>= b: C 511, a >>>= b: C 511, a &= b: C 7, a ^= b: C 65528, a |= b: C 65535
# Character a = (char)65535; Character b = (char)3;
a * b: I 196605, a / b: I 21845, a % b: I 0, a + b: I 65538, a - b: I 65532, a << b: I 524280, a >> b: I 8191
a >>> b: I 8191, a & b: I 3, a ^ b: I 65532, a | b: I 65535, a < b: false, a <= b: false, a > b: true, a >= b: true
a == b: false, a != b: true, a *= b: C 65533, a /= b: C 21845, a %= b: C 0, a += b: C 2, a -= b: C 65532
a <<= b: C 65528, a >>= b: C 8191, a >>>= b: C 8191, a &= b: C 3, a ^= b: C 65532, a |= b: C 65535
# Character a = (char)65535; Integer b = 0;
a * b: I 0, a / b: thrown ArithmeticException / by zero, a % b: thrown ArithmeticException / by zero, a + b: I 65535
a - b: I 65535, a << b: I 65535, a >> b: I 65535, a >>> b: I 65535, a & b: I 0, a ^ b: I 65535, a | b: I 65535
a < b: false, a <= b: false, a > b: true, a >= b: true, a == b: false, a != b: true, a *= b: C 0
a /= b: thrown ArithmeticException / by zero, a %= b: thrown ArithmeticException / by zero, a += b: C 65535
a -= b: C 65535, a <<= b: C 65535, a >>= b: C 65535, a >>>= b: C 65535, a &= b: C 0, a ^= b: C 65535
a |= b: C 65535
# Character a = (char)65535; Long b = -1L;
a * b: J -65535, a / b: J -65535, a % b: J 0, a + b: J 65534, a - b: J 65536, a << b: I -2147483648, a >> b: I 0
a >>> b: I 0, a & b: J 65535, a ^ b: J -65536, a | b: J -1, a < b: false, a <= b: false, a > b: true, a >= b: true
a == b: false, a != b: true, a *= b: C 1, a /= b: C 1, a %= b: C 0, a += b: C 65534, a -= b: C 0, a <<= b: C 0
a >>= b: C 0, a >>>= b: C 0, a &= b: C 65535, a ^= b: C 0, a |= b: C 65535
# Integer a = 2147483647; Byte b = (byte)-1;
a * b: I -2147483647, a / b: I -2147483647, a % b: I 0, a + b: I 2147483646, a - b: I -2147483648
a << b: I -2147483648, a >> b: I 0, a >>> b: I 0, a & b: I 2147483647, a ^ b: I -2147483648, a | b: I -1
a < b: false, a <= b: false, a > b: true, a >= b: true, a == b: false, a != b: true, a *= b: I -2147483647
a /= b: I -2147483647, a %= b: I 0, a += b: I 2147483646, a -= b: I -2147483648, a <<= b: I -2147483648
a >>= b: I 0, a >>>= b: I 0, a &= b: I 2147483647, a ^= b: I -2147483648, a |= b: I -1
# Integer a = 2147483647; Short b = (short)7;
a * b: I 2147483641, a / b: I 306783378, a % b: I 1, a + b: I -2147483642, a - b: I 2147483640, a << b: I -128
a >> b: I 16777215, a >>> b: I 16777215, a & b: I 7, a ^ b: I 2147483640, a | b: I 2147483647, a < b: false
a <= b: false, a > b: true, a >= b: true, a == b: false, a != b: true, a *= b: I 2147483641, a /= b: I 306783378
a %= b: I 1, a += b: I -2147483642, a -= b: I 2147483640, a <<= b: I -128, a >>= b: I 16777215, a >>>= b: I 16777215
a &= b: I 7, a ^= b: I 2147483640, a |= b: I 2147483647
# Integer a = 2147483647; Character b = (char)3;
a * b: I 2147483645, a / b: I 715827882, a % b: I 1, a + b: I -2147483646, a - b: I 2147483644, a << b: I -8
a >> b: I 268435455, a >>> b: I 268435455, a & b: I 3, a ^ b: I 2147483644, a | b: I 2147483647, a < b: false
a <= b: false, a > b: true, a >= b: true, a == b: false, a != b: true, a *= b: I 2147483645, a /= b: I 715827882
a %= b: I 1, a += b: I -2147483646, a -= b: I 2147483644, a <<= b: I -8, a >>= b: I 268435455, a >>>= b: I 268435455
a &= b: I 3, a ^= b: I 2147483644, a |= b: I 2147483647
# Integer a = 2147483647; Integer b = 0;
a * b: I 0, a / b: thrown ArithmeticException / by zero, a % b: thrown ArithmeticException / by zero
a + b: I 2147483647, a - b: I 2147483647, a << b: I 2147483647, a >> b: I 2147483647, a >>> b: I 2147483647
a & b: I 0, a ^ b: I 2147483647, a | b: I 2147483647, a < b: false, a <= b: false, a > b: true, a >= b: true
a == b: false, a != b: true, a *= b: I 0, a /= b: thrown ArithmeticException / by zero
a %= b: thrown ArithmeticException / by zero, a += b: I 2147483647, a -= b: I 2147483647, a <<= b: I 2147483647
a >>= b: I 2147483647, a >>>= b: I 2147483647, a &= b: I 0, a ^= b: I 2147483647, a |= b: I 2147483647
# Integer a = 2147483647; Long b = -1L;
a * b: J -2147483647, a / b: J -2147483647, a % b: J 0, a + b: J 2147483646, a - b: J 2147483648
a << b: I -2147483648, a >> b: I 0, a >>> b: I 0, a & b: J 2147483647, a ^ b: J -2147483648, a | b: J -1
a < b: false, a <= b: false, a > b: true, a >= b: true, a == b: false, a != b: true, a *= b: I -2147483647
a /= b: I -2147483647, a %= b: I 0, a += b: I 2147483646, a -= b: I -2147483648, a <<= b: I -2147483648
a >>= b: I 0, a >>>= b: I 0, a &= b: I 2147483647, a ^= b: I -2147483648, a |= b: I -1
# Long a = -9223372036854775808L; Byte b = (byte)-1;
a * b: J -9223372036854775808, a / b: J -9223372036854775808, a % b: J 0, a + b: J 9223372036854775807
a - b: J -9223372036854775807, a << b: J 0, a >> b: J -1, a >>> b: J 1, a & b: J -9223372036854775808
a ^ b: J 9223372036854775807, a | b: J -1, a < b: true, a <= b: true, a > b: false, a >= b: false, a == b: false
a != b: true, a *= b: J -9223372036854775808, a /= b: J -9223372036854775808, a %= b: J 0
a += b: J 9223372036854775807, a -= b: J -9223372036854775807, a <<= b: J 0, a >>= b: J -1, a >>>= b: J 1
a &= b: J -9223372036854775808, a ^= b: J 9223372036854775807, a |= b: J -1
# Long a = -9223372036854775808L; Short b = (short)7;
a * b: J -9223372036854775808, a / b: J -1317624576693539401, a % b: J -1, a + b: J -9223372036854775801
a - b: J 9223372036854775801, a << b: J 0, a >> b: J -72057594037927936, a >>> b: J 72057594037927936, a & b: J 0
a ^ b: J -9223372036854775801, a | b: J -9223372036854775801, a < b: true, a <= b: true, a > b: false, a >= b: false
a == b: false, a != b: true, a *= b: J -9223372036854775808, a /= b: J -1317624576693539401, a %= b: J -1
a += b: J -9223372036854775801, a -= b: J 9223372036854775801, a <<= b: J 0, a >>= b: J -72057594037927936
a >>>= b: J 72057594037927936, a &= b: J 0, a ^= b: J -9223372036854775801, a |= b: J -9223372036854775801
# Long a = -9223372036854775808L; Character b = (char)3;
a * b: J -9223372036854775808, a / b: J -3074457345618258602, a % b: J -2, a + b: J -9223372036854775805
a - b: J 9223372036854775805, a << b: J 0, a >> b: J -1152921504606846976, a >>> b: J 1152921504606846976
a & b: J 0, a ^ b: J -9223372036854775805, a | b: J -9223372036854775805, a < b: true, a <= b: true, a > b: false
a >= b: false, a == b: false, a != b: true, a *= b: J -9223372036854775808, a /= b: J -3074457345618258602
a %= b: J -2, a += b: J -9223372036854775805, a -= b: J 9223372036854775805, a <<= b: J 0
a >>= b: J -1152921504606846976, a >>>= b: J 1152921504606846976, a &= b: J 0, a ^= b: J -9223372036854775805
a |= b: J -9223372036854775805
# Long a = -9223372036854775808L; Integer b = 0;
a * b: J 0, a / b: thrown ArithmeticException / by zero, a % b: thrown ArithmeticException / by zero
a + b: J -9223372036854775808, a - b: J -9223372036854775808, a << b: J -9223372036854775808
a >> b: J -9223372036854775808, a >>> b: J -9223372036854775808, a & b: J 0, a ^ b: J -9223372036854775808
a | b: J -9223372036854775808, a < b: true, a <= b: true, a > b: false, a >= b: false, a == b: false, a != b: true
a *= b: J 0, a /= b: thrown ArithmeticException / by zero, a %= b: thrown ArithmeticException / by zero
a += b: J -9223372036854775808, a -= b: J -9223372036854775808, a <<= b: J -9223372036854775808
a >>= b: J -9223372036854775808, a >>>= b: J -9223372036854775808, a &= b: J 0, a ^= b: J -9223372036854775808
a |= b: J -9223372036854775808
# Long a = -9223372036854775808L; Long b = -1L;
a * b: J -9223372036854775808, a / b: J -9223372036854775808, a % b: J 0, a + b: J 9223372036854775807
a - b: J -9223372036854775807, a << b: J 0, a >> b: J -1, a >>> b: J 1, a & b: J -9223372036854775808
a ^ b: J 9223372036854775807, a | b: J -1, a < b: true, a <= b: true, a > b: false, a >= b: false, a == b: false
a != b: true, a *= b: J -9223372036854775808, a /= b: J -9223372036854775808, a %= b: J 0
a += b: J 9223372036854775807, a -= b: J -9223372036854775807, a <<= b: J 0, a >>= b: J -1, a >>>= b: J 1
a &= b: J -9223372036854775808, a ^= b: J 9223372036854775807, a |= b: J -1";

/// Operators over a box and a primitive.
pub const MIXED: &str = "# Integer a = 2147483647; long b = -1L;
a * b: J -2147483647, a + b: J 2147483646, a - b: J 2147483648, a << b: I -2147483648, a >>> b: I 0
a & b: J 2147483647, a < b: false, a >= b: true, a == b: false, a != b: true, a += b: I 2147483646
a -= b: I -2147483648, a <<= b: I -2147483648
# int a = 2147483647; Long b = -1L;
a * b: J -2147483647, a + b: J 2147483646, a - b: J 2147483648, a << b: I -2147483648, a >>> b: I 0
a & b: J 2147483647, a < b: false, a >= b: true, a == b: false, a != b: true, a += b: I 2147483646
a -= b: I -2147483648, a <<= b: I -2147483648
# Long a = -9223372036854775808L; int b = 0;
a * b: J 0, a + b: J -9223372036854775808, a - b: J -9223372036854775808, a << b: J -9223372036854775808
a >>> b: J -9223372036854775808, a & b: J 0, a < b: true, a >= b: false, a == b: false, a != b: true
a += b: J -9223372036854775808, a -= b: J -9223372036854775808, a <<= b: J -9223372036854775808
# long a = -9223372036854775808L; Integer b = 0;
a * b: J 0, a + b: J -9223372036854775808, a - b: J -9223372036854775808, a << b: J -9223372036854775808
a >>> b: J -9223372036854775808, a & b: J 0, a < b: true, a >= b: false, a == b: false, a != b: true
a += b: J -9223372036854775808, a -= b: J -9223372036854775808, a <<= b: J -9223372036854775808
# Byte a = (byte)-128; char b = (char)3;
a * b: I -384, a + b: I -125, a - b: I -131, a << b: I -1024, a >>> b: I 536870896, a & b: I 0, a < b: true
a >= b: false, a == b: false, a != b: true, a += b: B -125, a -= b: B 125, a <<= b: B 0
# byte a = (byte)-128; Character b = (char)3;
a * b: I -384, a + b: I -125, a - b: I -131, a << b: I -1024, a >>> b: I 536870896, a & b: I 0, a < b: true
a >= b: false, a == b: false, a != b: true, a += b: B -125, a -= b: B 125, a <<= b: B 0
# Character a = (char)65535; short b = (short)7;
a * b: I 458745, a + b: I 65542, a - b: I 65528, a << b: I 8388480, a >>> b: I 511, a & b: I 7, a < b: false
a >= b: true, a == b: false, a != b: true, a += b: C 6, a -= b: C 65528, a <<= b: C 65408
# char a = (char)65535; Short b = (short)7;
a * b: I 458745, a + b: I 65542, a - b: I 65528, a << b: I 8388480, a >>> b: I 511, a & b: I 7, a < b: false
a >= b: true, a == b: false, a != b: true, a += b: C 6, a -= b: C 65528, a <<= b: C 65408
# Short a = (short)-300; byte b = (byte)-1;
a * b: I 300, a + b: I -301, a - b: I -299, a << b: I 0, a >>> b: I 1, a & b: I -300, a < b: true, a >= b: false
a == b: false, a != b: true, a += b: S -301, a -= b: S -299, a <<= b: S 0
# short a = (short)-300; Byte b = (byte)-1;
a * b: I 300, a + b: I -301, a - b: I -299, a << b: I 0, a >>> b: I 1, a & b: I -300, a < b: true, a >= b: false
a == b: false, a != b: true, a += b: S -301, a -= b: S -299, a <<= b: S 0";

/// Operators before or behind one box.
pub const SINGLE: &str = "# Byte x = (byte)-128;
+x: I -128, -x: I 128, ~x: I 127, x++: B -128, ++x: B -127, x--: B -128, --x: B 127, x++; x: B -127, --x; x: B 127
# Byte x = (byte)127;
+x: I 127, -x: I -127, ~x: I -128, x++: B 127, ++x: B -128, x--: B 127, --x: B 126, x++; x: B -128, --x; x: B 126
# Short x = (short)-32768;
+x: I -32768, -x: I 32768, ~x: I 32767, x++: S -32768, ++x: S -32767, x--: S -32768, --x: S 32767, x++; x: S -32767
--x; x: S 32767
# Short x = (short)32767;
+x: I 32767, -x: I -32767, ~x: I -32768, x++: S 32767, ++x: S -32768, x--: S 32767, --x: S 32766, x++; x: S -32768
--x; x: S 32766
# Character x = (char)0;
+x: I 0, -x: I 0, ~x: I -1, x++: C 0, ++x: C 1, x--: C 0, --x: C 65535, x++; x: C 1, --x; x: C 65535
# Character x = (char)65535;
+x: I 65535, -x: I -65535, ~x: I -65536, x++: C 65535, ++x: C 0, x--: C 65535, --x: C 65534, x++; x: C 0
--x; x: C 65534
# Integer x = -2147483648;
+x: I -2147483648, -x: I -2147483648, ~x: I 2147483647, x++: I -2147483648, ++x: I -2147483647, x--: I -2147483648
--x: I 2147483647, x++; x: I -2147483647, --x; x: I 2147483647
# Integer x = 2147483647;
+x: I 2147483647, -x: I -2147483647, ~x: I -2147483648, x++: I 2147483647, ++x: I -2147483648, x--: I 2147483647
--x: I 2147483646, x++; x: I -2147483648, --x; x: I 2147483646
# Long x = -9223372036854775808L;
+x: J -9223372036854775808, -x: J -9223372036854775808, ~x: J 9223372036854775807, x++: J -9223372036854775808
++x: J -9223372036854775807, x--: J -9223372036854775808, --x: J 9223372036854775807, x++; x: J -9223372036854775807
--x; x: J 9223372036854775807
# Long x = 9223372036854775807L;
+x: J 9223372036854775807, -x: J -9223372036854775807, ~x: J -9223372036854775808, x++: J 9223372036854775807
++x: J -9223372036854775808, x--: J 9223372036854775807, --x: J 9223372036854775806, x++; x: J -9223372036854775808
--x; x: J 9223372036854775806
# Boolean x = true;
!x: false, x && true: true, x || false: true, x & true: true, x ^ true: false, x | false: true, x ? 1 : 2: I 1
x == true: true, x != true: false, x &= false: false, x ^= true; x: false
int n = 0; while (x) { n++; x = false } n: I 1
# Boolean x = false;
!x: true, x && true: false, x || false: false, x & true: false, x ^ true: true, x | false: false, x ? 1 : 2: I 2
x == true: false, x != true: true, x &= false: false, x ^= true; x: true
int n = 0; while (x) { n++; x = false } n: I 0";

/// Members and fields of the classes of numbers, chars and truth values.
pub const MEMBERS: &str = r"I -2147483648, 0 ticks: Integer.MIN_VALUE / -1
J -9223372036854775808: Long.MAX_VALUE + 1
I -2147483648: Integer.MAX_VALUE + 1
B 127: Byte.MAX_VALUE
B -128: Byte.MIN_VALUE
S 32767: Short.MAX_VALUE
S -32768: Short.MIN_VALUE
I 2147483647, 0 ticks: java.lang.Integer.MAX_VALUE
J 9223372036854775807: Long.MAX_VALUE
J -9223372036854775808: Long.MIN_VALUE
C 65535: Character.MAX_VALUE
C 0: Character.MIN_VALUE
I 254: Byte.MAX_VALUE + Byte.MAX_VALUE
J 2, 1 ticks: Math.floorMod(-7, 3)
J -3: Math.floorDiv(-7, 3)
thrown ArithmeticException / by zero: Math.floorDiv(1, 0)
I 2147483647: Math.toIntExact(2147483647L)
thrown ArithmeticException integer overflow: Math.toIntExact(2147483648L)
J 7: Math.abs(-7)
J -9223372036854775808: Math.abs(Long.MIN_VALUE)
J 3: Math.max(Integer.valueOf(3), (byte)2)
thrown NumberFormatException not a number: Integer.parseInt('x')
thrown NumberFormatException not a number: Integer.parseInt(null)
I -12: Integer.parseInt('-12')
J 5000000000: Long.parseLong('5000000000')
I 2, 1 ticks: Integer.bitCount(5)
I -1: Integer.compare(1, 2)
I 9: Integer.max(3, 9)
I -1: Long.signum(-5)
T ff: Integer.toHexString(255)
T 101: Integer.toBinaryString(5)
T 7: Integer.toString(7)
I 5: Integer.valueOf(5)
I 5, 2 ticks: Integer.valueOf(5).intValue()
J 5: Integer i = 5; i.longValue()
B 44: Integer i = 300; i.byteValue()
S 1: Long l = 65537L; l.shortValue()
I 5: Number n = 5L; n.intValue()
C 97: Character c = (char)97; c.charValue()
true: Boolean b = true; b.booleanValue()
T 5: Integer i = 5; i.toString()
T a: Character c = (char)97; c.toString()
true: Integer i = 5; i.equals(5)
false: Integer i = 5; i.equals(5L)
I -1: Integer i = 5; i.compareTo(6)
thrown ClassCastException Cannot compare [Integer] and [Long]: Integer i = 5; i.compareTo(6L)
thrown NullPointerException: Integer i = 5; i.compareTo(null)
thrown NullPointerException, 0 ticks: Integer i = null; i.intValue()
thrown NullPointerException, 0 ticks: Boolean b = null; b.booleanValue()
null: Integer i = null; i?.toString()
I 255: Byte.toUnsignedInt((byte)-1)
true: Character.isDigit((char)55)
C 65: Character.toUpperCase((char)97)
true: Boolean.parseBoolean('TRUE')
false: Boolean.parseBoolean(null)
I 1: Boolean.compare(true, false)
thrown NullPointerException, 0 ticks: Boolean b = null; Boolean.compare(b, true)";

/// Boxes as parameters and results, in the order in which parts are evaluated, and beside other references.
pub const RELATED: &str = r"thrown NullPointerException: Integer i = null; i + 1
I 7: Integer i = 5; i += 2L
I 7: Integer i = 5; i += 2L; i
I -1: Integer i = 1; i += 4294967294L; i
true: Integer a = 127; Integer b = 127; a == b
true: Integer a = 128; Integer b = 128; a == b
false: Integer a = 128; Integer b = 128; a != b
true: Object a = 1; Object b = 1L; a == b
true: Integer a = 97; Character b = (char)97; a == b
false: Integer a = 1; Boolean b = true; a == b
false: Integer a = 1; a == true
false: Integer a = 1; a == '1'
thrown ClassCastException Cannot cast from [Integer] to [byte]: def x = 200; byte b = x; b
thrown ClassCastException Cannot cast from [Long] to [int]: def x = 1L; int i = x; i
C 65: char c = (char)(Integer)65; c
I 1: Object o = 1; (int)o
J 5: long f(Integer x) { return x } f(5)
I 6: Integer f(int x) { return x + 1 } f(5)
thrown NullPointerException, 1 ticks: int f(Integer x) { return x } f(null)
null: Integer f(Integer x) { return x } f(null)
thrown NullPointerException, 0 ticks: int f(int x) { return x } Integer i = null; f(i)
I 3: def f(def x) { return x } Integer i = f(3); i
I 3: def f(def x) { return x } int i = f((short)3); i
thrown ClassCastException Cannot cast from [Long] to [Integer]: def f(def x) { return x } Integer i = f(3L); i
thrown ClassCastException Cannot cast from [Long] to [int]: int f(def x) { return x } f(3L)
thrown NullPointerException: int f(def x) { return x } f(null)
null: Integer f(def x) { return x } f(null)
I 97: int f(Character c) { return c } f((char)97)
C 97: Character f(char c) { return c } f((char)97)
J 4: Long f(Long x) { return x * 2 } f(2L)
J 4: def f(Long x) { return x * 2 } f(2L)
J 5: Number f(Long x) { return x } f(5L)
J 9: Long f(Number x) { return (Long)x } f(9)
B 44: byte f(Object x) { return (byte)x } f(300)
true: Boolean f(boolean b) { return !b } f(false)
thrown NullPointerException, 0 ticks: int f() { throw new IllegalStateException('ran') } Integer i = null; i += f()
thrown NullPointerException, 0 ticks: int f() { throw new IllegalStateException('ran') } Integer i = null; i + f()
thrown IllegalStateException ran: int f() { throw new IllegalStateException('ran') } Integer i = 1; i += f()
thrown IllegalStateException ran: int f() { throw new IllegalStateException('ran') } Integer i = null; f() + i
I 1: Integer i = 1; try { i += 1 / 0 } catch (ArithmeticException e) { } i
null: Integer i = null; try { i++ } catch (NullPointerException e) { } i
I 2: Integer i = 1; Object o = i; i++; i
I 1: Integer i = 1; Object o = i; i++; o
I 3: Boolean b = true; int n = 0; while (b) { n++; b = n < 3 } n
I 10: Integer n = 0; for (Integer i = 0; i < 5; i++) { n += i } n
I 1: true ? (Integer)1 : (Long)2L
J 2: Integer i = 1; Number n = 2L; false ? i : n
I 1: true ? 1 : (Integer)2
I 5: Integer i = null; i ?: 5
I 7: Integer i = null; int j = i ?: 7; j
T a5: Integer i = 5; 'a' + i
T anull: Integer i = null; 'a' + i
true: Object o = 1; o instanceof Integer
true: Object o = 1; o instanceof Number
false: Object o = 1; o instanceof Long
false: def c = (char)97; c instanceof Number
true: def c = (char)97; c instanceof Character
true: Integer i = 1; i instanceof Comparable
false: Integer i = null; i instanceof Integer";
