//! Listings, and how their runs end.

/// A listing, the limits of its run, and what the run leaves.
#[derive(Clone, Copy)]
pub struct Row {
    pub listing: &'static str,
    pub loops: u64,
    pub depth: u32,
    pub ticks: u64,
    pub room: u64,
    pub left: &'static str,
}

/// The rows.
pub const ROWS: [Row; 87] = [
    // int s = 0; for (int i = 0; i < 5; i++) { s += i } s
    Row {
        listing: "painless 1\nfun 0 loop R - II\ni 0\nstore 0\ni 0\nstore 1\ngoto 13\nload 0\nload 1\nadd.i\nstore 0\nload 1\ni 1\nadd.i\nstore 1\nload 1\ni 5\nlt.i\nloop 5\nload 0\nbox int\nret\nend\n",
        loops: 5,
        depth: 100,
        ticks: 100,
        room: 1000,
        left: "int 10; steps 72; ticks 5",
    },
    // the same with i < 6
    Row {
        listing: "painless 1\nfun 0 loop R - II\ni 0\nstore 0\ni 0\nstore 1\ngoto 13\nload 0\nload 1\nadd.i\nstore 0\nload 1\ni 1\nadd.i\nstore 1\nload 1\ni 6\nlt.i\nloop 5\nload 0\nbox int\nret\nend\n",
        loops: 5,
        depth: 100,
        ticks: 100,
        room: 1000,
        left: "loop; steps 69; ticks 5",
    },
    // two loops of three turns share the turns of their frame
    Row {
        listing: "painless 1\nfun 0 loop R - I\ni 0\nstore 0\ngoto 7\nload 0\ni 1\nadd.i\nstore 0\nload 0\ni 3\nlt.i\nloop 3\ni 0\nstore 0\ngoto 18\nload 0\ni 1\nadd.i\nstore 0\nload 0\ni 3\nlt.i\nloop 14\nload 0\nbox int\nret\nend\n",
        loops: 5,
        depth: 100,
        ticks: 100,
        room: 1000,
        left: "loop; steps 54; ticks 5",
    },
    // two functions with such a loop each
    Row {
        listing: "painless 1\nfun 0 loop R - -\ncall 1\ncall 2\nadd.i\nbox int\nret\nend\nfun 1 loop I - I\ni 0\nstore 0\ngoto 7\nload 0\ni 1\nadd.i\nstore 0\nload 0\ni 3\nlt.i\nloop 3\nload 0\nret\nend\nfun 2 loop I - I\ni 0\nstore 0\ngoto 7\nload 0\ni 1\nadd.i\nstore 0\nload 0\ni 3\nlt.i\nloop 3\nload 0\nret\nend\n",
        loops: 5,
        depth: 100,
        ticks: 100,
        room: 1000,
        left: "int 6; steps 71; ticks 8",
    },
    // int f(int n) { return n == 0 ? 0 : f(n-1) + 1 } f(9)
    Row {
        listing: "painless 1\nfun 0 loop R - -\ni 9\ncall 1\nbox int\nret\nend\nfun 1 loop I I -\nload 0\ni 0\neq.i\nifz 6\ni 0\nret\nload 0\ni 1\nsub.i\ncall 1\ni 1\nadd.i\nret\nend\n",
        loops: 100,
        depth: 10,
        ticks: 100,
        room: 1000,
        left: "int 9; steps 109; ticks 10",
    },
    // f(10)
    Row {
        listing: "painless 1\nfun 0 loop R - -\ni 10\ncall 1\nbox int\nret\nend\nfun 1 loop I I -\nload 0\ni 0\neq.i\nifz 6\ni 0\nret\nload 0\ni 1\nsub.i\ncall 1\ni 1\nadd.i\nret\nend\n",
        loops: 100,
        depth: 10,
        ticks: 100,
        room: 1000,
        left: "depth; steps 82; ticks 11",
    },
    // 256 frames deep
    Row {
        listing: "painless 1\nfun 0 loop R - -\ni 255\ncall 1\nbox int\nret\nend\nfun 1 loop I I -\nload 0\ni 0\neq.i\nifz 6\ni 0\nret\nload 0\ni 1\nsub.i\ncall 1\ni 1\nadd.i\nret\nend\n",
        loops: 100,
        depth: 256,
        ticks: 1000,
        room: 1000,
        left: "int 255; steps 2815; ticks 256",
    },
    // 257 frames deep
    Row {
        listing: "painless 1\nfun 0 loop R - -\ni 256\ncall 1\nbox int\nret\nend\nfun 1 loop I I -\nload 0\ni 0\neq.i\nifz 6\ni 0\nret\nload 0\ni 1\nsub.i\ncall 1\ni 1\nadd.i\nret\nend\n",
        loops: 100,
        depth: 256,
        ticks: 1000,
        room: 1000,
        left: "depth; steps 2050; ticks 257",
    },
    // int f() { return 1 } f() + f()
    Row {
        listing: "painless 1\nfun 0 loop R - -\ncall 1\ncall 1\nadd.i\nbox int\nret\nend\nfun 1 loop I - -\ni 1\nret\nend\n",
        loops: 100,
        depth: 100,
        ticks: 2,
        room: 1000,
        left: "int 2; steps 9; ticks 2",
    },
    // the same with one tick
    Row {
        listing: "painless 1\nfun 0 loop R - -\ncall 1\ncall 1\nadd.i\nbox int\nret\nend\nfun 1 loop I - -\ni 1\nret\nend\n",
        loops: 100,
        depth: 100,
        ticks: 1,
        room: 1000,
        left: "ticks; steps 4; ticks 1",
    },
    // ticks are tried before the depth
    Row {
        listing: "painless 1\nfun 0 loop R - -\ncall 1\ncall 1\nadd.i\nbox int\nret\nend\nfun 1 loop I - -\ni 1\nret\nend\n",
        loops: 100,
        depth: 0,
        ticks: 0,
        room: 1000,
        left: "ticks; steps 1; ticks 0",
    },
    // the depth alone
    Row {
        listing: "painless 1\nfun 0 loop R - -\ncall 1\ncall 1\nadd.i\nbox int\nret\nend\nfun 1 loop I - -\ni 1\nret\nend\n",
        loops: 100,
        depth: 0,
        ticks: 1,
        room: 1000,
        left: "depth; steps 1; ticks 1",
    },
    // no more than one frame deep, twice
    Row {
        listing: "painless 1\nfun 0 loop R - -\ncall 1\ncall 1\nadd.i\nbox int\nret\nend\nfun 1 loop I - -\ni 1\nret\nend\n",
        loops: 100,
        depth: 1,
        ticks: 2,
        room: 1000,
        left: "int 2; steps 9; ticks 2",
    },
    // an empty loop of three turns
    Row {
        listing: "painless 1\nfun 0 loop V - I\ni 0\nstore 0\ngoto 7\nload 0\ni 1\nadd.i\nstore 0\nload 0\ni 3\nlt.i\nloop 3\nret\nend\n",
        loops: 100,
        depth: 100,
        ticks: 3,
        room: 1000,
        left: "nothing; steps 32; ticks 3",
    },
    // the same with two ticks
    Row {
        listing: "painless 1\nfun 0 loop V - I\ni 0\nstore 0\ngoto 7\nload 0\ni 1\nadd.i\nstore 0\nload 0\ni 3\nlt.i\nloop 3\nret\nend\n",
        loops: 100,
        depth: 100,
        ticks: 2,
        room: 1000,
        left: "ticks; steps 23; ticks 2",
    },
    // turns are tried before ticks
    Row {
        listing: "painless 1\nfun 0 loop V - I\ni 0\nstore 0\ngoto 7\nload 0\ni 1\nadd.i\nstore 0\nload 0\ni 3\nlt.i\nloop 3\nret\nend\n",
        loops: 0,
        depth: 100,
        ticks: 0,
        room: 1000,
        left: "loop; steps 7; ticks 0",
    },
    // the other operand of a division is zero
    Row {
        listing: "painless 1\nfun 0 loop R - -\ni 1\ni 0\ndiv.i\nbox int\nret\nend\n",
        loops: 100,
        depth: 100,
        ticks: 100,
        room: 1000,
        left: "thrown; steps 3; ticks 0",
    },
    // no room for the exception
    Row {
        listing: "painless 1\nfun 0 loop R - -\ni 1\ni 0\ndiv.i\nbox int\nret\nend\n",
        loops: 100,
        depth: 100,
        ticks: 100,
        room: 0,
        left: "room; steps 3; ticks 0",
    },
    // a trap catches it
    Row {
        listing: "painless 1\nfun 0 loop R - -\ntrap 0 3 4 java.lang.ArithmeticException\ni 1\ni 0\ndiv.i\nbox int\npop\ni 7\nbox int\nret\nend\n",
        loops: 100,
        depth: 100,
        ticks: 100,
        room: 1000,
        left: "int 7; steps 7; ticks 0",
    },
    // a trap of another class does not
    Row {
        listing: "painless 1\nfun 0 loop R - -\ntrap 0 3 4 java.lang.NullPointerException\ni 1\ni 0\ndiv.i\nbox int\npop\ni 7\nbox int\nret\nend\n",
        loops: 100,
        depth: 100,
        ticks: 100,
        room: 1000,
        left: "thrown; steps 3; ticks 0",
    },
    // a trap that ends before does not
    Row {
        listing: "painless 1\nfun 0 loop R - -\ntrap 0 2 4 java.lang.ArithmeticException\ni 1\ni 0\ndiv.i\nbox int\npop\ni 7\nbox int\nret\nend\n",
        loops: 100,
        depth: 100,
        ticks: 100,
        room: 1000,
        left: "thrown; steps 3; ticks 0",
    },
    // a trap of the caller catches it at the call
    Row {
        listing: "painless 1\nfun 0 loop R - -\ntrap 0 1 2 java.lang.Exception\ncall 1\nret\npop\nj 5\nbox long\nret\nend\nfun 1 loop R - -\ni 1\ni 0\nrem.i\nbox int\nret\nend\n",
        loops: 100,
        depth: 100,
        ticks: 100,
        room: 1000,
        left: "long 5; steps 8; ticks 1",
    },
    // null is no int
    Row {
        listing: "painless 1\nfun 0 loop R - -\nnull\nunbox int imp\nbox int\nret\nend\n",
        loops: 100,
        depth: 100,
        ticks: 100,
        room: 1000,
        left: "thrown; steps 2; ticks 0",
    },
    // an int that is cast to a byte
    Row {
        listing: "painless 1\nfun 0 loop R - -\ni 300\nbox int\nunbox byte exp\nbox byte\nret\nend\n",
        loops: 100,
        depth: 100,
        ticks: 100,
        room: 1000,
        left: "byte 44; steps 5; ticks 0",
    },
    // 1L << 33
    Row {
        listing: "painless 1\nfun 0 loop R - -\nj 1\ni 33\nshl.j\nbox long\nret\nend\n",
        loops: 100,
        depth: 100,
        ticks: 100,
        room: 1000,
        left: "long 8589934592; steps 5; ticks 0",
    },
    // (char)65601
    Row {
        listing: "painless 1\nfun 0 loop R - -\ni 65601\ni2c\nbox char\nret\nend\n",
        loops: 100,
        depth: 100,
        ticks: 100,
        room: 1000,
        left: "char 65; steps 4; ticks 0",
    },
    // 2, 1 and 2 are left
    Row {
        listing: "painless 1\nfun 0 loop R - -\ni 1\ni 2\ndupx1\nsub.i\nsub.i\nbox int\nret\nend\n",
        loops: 100,
        depth: 100,
        ticks: 100,
        room: 1000,
        left: "int 3; steps 7; ticks 0",
    },
    // 3, 1, 2 and 3 are left
    Row {
        listing: "painless 1\nfun 0 loop R - -\ni 1\ni 2\ni 3\ndupx2\nsub.i\nsub.i\nsub.i\nbox int\nret\nend\n",
        loops: 100,
        depth: 100,
        ticks: 100,
        room: 1000,
        left: "int 1; steps 9; ticks 0",
    },
    // 1, 2, 1 and 2 are left
    Row {
        listing: "painless 1\nfun 0 loop R - -\ni 1\ni 2\ndup2\nsub.i\nsub.i\nsub.i\nbox int\nret\nend\n",
        loops: 100,
        depth: 100,
        ticks: 100,
        room: 1000,
        left: "int -2; steps 8; ticks 0",
    },
    // -9223372036854775808L / -1L
    Row {
        listing: "painless 1\nfun 0 loop R - -\nj -9223372036854775808\nj -1\ndiv.j\nbox long\nret\nend\n",
        loops: 100,
        depth: 100,
        ticks: 100,
        room: 1000,
        left: "long -9223372036854775808; steps 5; ticks 0",
    },
    // arguments come in their order, and other locals begin with 0
    Row {
        listing: "painless 1\nfun 0 loop R - -\ni 7\ni 2\ncall 1\nbox int\nret\nend\nfun 1 loop I II I\nload 0\nload 1\nsub.i\nload 2\nadd.i\nret\nend\n",
        loops: 100,
        depth: 100,
        ticks: 100,
        room: 1000,
        left: "int 5; steps 11; ticks 1",
    },
    // an int as it lies in code
    Row {
        listing: "painless 1\nfun 0 loop I - -\ni 3\nret\nend\n",
        loops: 100,
        depth: 100,
        ticks: 100,
        room: 1000,
        left: "i 3; steps 2; ticks 0",
    },
    // a long as it lies in code
    Row {
        listing: "painless 1\nfun 0 loop J - -\ni 3\ni2j\nret\nend\n",
        loops: 100,
        depth: 100,
        ticks: 100,
        room: 1000,
        left: "j 3; steps 3; ticks 0",
    },
    // no operand
    Row {
        listing: "painless 1\nfun 0 loop R - -\nadd.i\nbox int\nret\nend\n",
        loops: 100,
        depth: 100,
        ticks: 100,
        room: 1000,
        left: "stuck; steps 1; ticks 0",
    },
    // an operand of another kind
    Row {
        listing: "painless 1\nfun 0 loop R - -\ni 1\nj 1\nadd.i\nbox int\nret\nend\n",
        loops: 100,
        depth: 100,
        ticks: 100,
        room: 1000,
        left: "stuck; steps 3; ticks 0",
    },
    // no line
    Row {
        listing: "painless 1\nfun 0 loop R - -\ni 1\nend\n",
        loops: 100,
        depth: 100,
        ticks: 100,
        room: 1000,
        left: "stuck; steps 2; ticks 0",
    },
    // no function
    Row {
        listing: "painless 1\n",
        loops: 100,
        depth: 100,
        ticks: 100,
        room: 1000,
        left: "stuck; steps 0; ticks 0",
    },
    // two texts joined, which costs the units and one
    Row {
        listing: "painless 1\nfun 0 loop R - -\ntext \"ab\"\ntext \"c\"\nconcat\nret\nend\n",
        loops: 100,
        depth: 100,
        ticks: 100,
        room: 4,
        left: "text abc; steps 4; ticks 0",
    },
    // the same with less room
    Row {
        listing: "painless 1\nfun 0 loop R - -\ntext \"ab\"\ntext \"c\"\nconcat\nret\nend\n",
        loops: 100,
        depth: 100,
        ticks: 100,
        room: 3,
        left: "room; steps 3; ticks 0",
    },
    // an int and a long that are equal
    Row {
        listing: "painless 1\nfun 0 loop I - -\ni 1\nbox int\nj 1\nbox long\nequal\nret\nend\n",
        loops: 100,
        depth: 100,
        ticks: 100,
        room: 0,
        left: "i 1; steps 6; ticks 0",
    },
    // texts that are equal
    Row {
        listing: "painless 1\nfun 0 loop I - -\ntext \"a\"\ntext \"a\"\nequal\nret\nend\n",
        loops: 100,
        depth: 100,
        ticks: 100,
        room: 0,
        left: "i 1; steps 4; ticks 0",
    },
    // .. and not one
    Row {
        listing: "painless 1\nfun 0 loop I - -\ntext \"a\"\ntext \"a\"\nsame\nret\nend\n",
        loops: 100,
        depth: 100,
        ticks: 100,
        room: 0,
        left: "i 0; steps 4; ticks 0",
    },
    // null is one
    Row {
        listing: "painless 1\nfun 0 loop I - -\nnull\nnull\nsame\nret\nend\n",
        loops: 100,
        depth: 100,
        ticks: 100,
        room: 0,
        left: "i 1; steps 4; ticks 0",
    },
    // an instance
    Row {
        listing: "painless 1\nfun 0 loop I - -\ntext \"a\"\nisa java.lang.CharSequence\nret\nend\n",
        loops: 100,
        depth: 100,
        ticks: 100,
        room: 0,
        left: "i 1; steps 3; ticks 0",
    },
    // null is no instance
    Row {
        listing: "painless 1\nfun 0 loop I - -\nnull\nisa java.lang.Object\nret\nend\n",
        loops: 100,
        depth: 100,
        ticks: 100,
        room: 0,
        left: "i 0; steps 3; ticks 0",
    },
    // a cast that the value takes, and one that it does not
    Row {
        listing: "painless 1\nfun 0 loop R - -\ntext \"a\"\ncast java.lang.Object imp\ncast java.lang.Integer imp\nret\nend\n",
        loops: 100,
        depth: 100,
        ticks: 100,
        room: 100,
        left: "thrown; steps 3; ticks 0",
    },
    // a jump at null
    Row {
        listing: "painless 1\nfun 0 loop I - -\nnull\nifnull 4\ni 1\nret\ni 2\nret\nend\n",
        loops: 100,
        depth: 100,
        ticks: 100,
        room: 0,
        left: "i 2; steps 4; ticks 0",
    },
    // .. and at another value
    Row {
        listing: "painless 1\nfun 0 loop I - -\ntext \"a\"\nifnull 4\ni 1\nret\ni 2\nret\nend\n",
        loops: 100,
        depth: 100,
        ticks: 100,
        room: 0,
        left: "i 1; steps 4; ticks 0",
    },
    // null is thrown, and caught
    Row {
        listing: "painless 1\nfun 0 loop I - -\ntrap 0 2 2 java.lang.NullPointerException\nnull\nthrow\npop\ni 7\nret\nend\n",
        loops: 100,
        depth: 100,
        ticks: 100,
        room: 1,
        left: "i 7; steps 5; ticks 0",
    },
    // a text is thrown: it is no exception, and the trap is of another class
    Row {
        listing: "painless 1\nfun 0 loop I - -\ntrap 0 2 2 java.lang.NullPointerException\ntext \"a\"\nthrow\npop\ni 7\nret\nend\n",
        loops: 100,
        depth: 100,
        ticks: 100,
        room: 1,
        left: "thrown; steps 2; ticks 0",
    },
    // the length of a text, which costs a tick
    Row {
        listing: "painless 1\nfun 0 loop I - -\ntext \"abc\"\ninvoke java.lang.CharSequence.length/0\nret\nend\n",
        loops: 100,
        depth: 100,
        ticks: 1,
        room: 0,
        left: "i 3; steps 3; ticks 1",
    },
    // the same without a tick
    Row {
        listing: "painless 1\nfun 0 loop I - -\ntext \"abc\"\ninvoke java.lang.CharSequence.length/0\nret\nend\n",
        loops: 100,
        depth: 100,
        ticks: 0,
        room: 0,
        left: "ticks; steps 2; ticks 0",
    },
    // an argument that is an int, and a result that is a char
    Row {
        listing: "painless 1\nfun 0 loop I - -\ntext \"abc\"\ni 1\ninvoke java.lang.CharSequence.charAt/1\nret\nend\n",
        loops: 100,
        depth: 100,
        ticks: 100,
        room: 0,
        left: "i 98; steps 4; ticks 1",
    },
    // .. and one that the member refuses
    Row {
        listing: "painless 1\nfun 0 loop I - -\ntext \"abc\"\ni 3\ninvoke java.lang.CharSequence.charAt/1\nret\nend\n",
        loops: 100,
        depth: 100,
        ticks: 100,
        room: 1000,
        left: "thrown; steps 3; ticks 1",
    },
    // null has no length, and the call is not paid
    Row {
        listing: "painless 1\nfun 0 loop I - -\nnull\ninvoke java.lang.CharSequence.length/0\nret\nend\n",
        loops: 100,
        depth: 100,
        ticks: 0,
        room: 100,
        left: "thrown; steps 2; ticks 0",
    },
    // a text stays a reference
    Row {
        listing: "painless 1\nfun 0 loop R - -\ntext \"abc\"\ni 1\ninvoke java.lang.String.substring/1\nret\nend\n",
        loops: 100,
        depth: 100,
        ticks: 100,
        room: 100,
        left: "text bc; steps 4; ticks 1",
    },
    // a static member
    Row {
        listing: "painless 1\nfun 0 loop I - -\ntext \"12\"\ninvoke java.lang.Integer.parseInt/1\nret\nend\n",
        loops: 100,
        depth: 100,
        ticks: 100,
        room: 0,
        left: "i 12; steps 3; ticks 1",
    },
    // a builder that is made, and its text
    Row {
        listing: "painless 1\nfun 0 loop R - -\nnew java.lang.StringBuilder/0\ntext \"ab\"\ninvoke java.lang.StringBuilder.append/1\ninvoke java.lang.Object.toString/0\nret\nend\n",
        loops: 100,
        depth: 100,
        ticks: 3,
        room: 1000,
        left: "text ab; steps 5; ticks 3",
    },
    // the same with less ticks
    Row {
        listing: "painless 1\nfun 0 loop R - -\nnew java.lang.StringBuilder/0\ntext \"ab\"\ninvoke java.lang.StringBuilder.append/1\ninvoke java.lang.Object.toString/0\nret\nend\n",
        loops: 100,
        depth: 100,
        ticks: 1,
        room: 1000,
        left: "ticks; steps 3; ticks 1",
    },
    // no room for a builder
    Row {
        listing: "painless 1\nfun 0 loop R - -\nnew java.lang.StringBuilder/0\nret\nend\n",
        loops: 100,
        depth: 100,
        ticks: 100,
        room: 0,
        left: "room; steps 1; ticks 1",
    },
    // a field is read without a tick
    Row {
        listing: "painless 1\nfun 0 loop I - -\nfield java.lang.Integer.MAX_VALUE\nret\nend\n",
        loops: 100,
        depth: 100,
        ticks: 0,
        room: 0,
        left: "i 2147483647; steps 2; ticks 0",
    },
    // a member that no list has
    Row {
        listing: "painless 1\nfun 0 loop I - -\ntext \"abc\"\ninvoke java.lang.CharSequence.size/0\nret\nend\n",
        loops: 100,
        depth: 100,
        ticks: 100,
        room: 100,
        left: "stuck; steps 2; ticks 0",
    },
    // a member by a class that inherits it
    Row {
        listing: "painless 1\nfun 0 loop I - -\ntext \"abc\"\ninvoke java.lang.String.length/0\nret\nend\n",
        loops: 100,
        depth: 100,
        ticks: 100,
        room: 100,
        left: "stuck; steps 2; ticks 0",
    },
    // a member on an int that is in no box
    Row {
        listing: "painless 1\nfun 0 loop I - -\ni 1\ninvoke java.lang.CharSequence.length/0\nret\nend\n",
        loops: 100,
        depth: 100,
        ticks: 100,
        room: 100,
        left: "stuck; steps 2; ticks 0",
    },
    // a member with too few words
    Row {
        listing: "painless 1\nfun 0 loop I - -\ni 1\ninvoke java.lang.CharSequence.charAt/1\nret\nend\n",
        loops: 100,
        depth: 100,
        ticks: 100,
        room: 100,
        left: "stuck; steps 2; ticks 0",
    },
    // a member of the prelude, which is not built
    Row {
        listing: "painless 1\nfun 0 loop R - -\ninvoke java.util.Comparator.naturalOrder/0\nret\nend\n",
        loops: 100,
        depth: 100,
        ticks: 100,
        room: 100,
        left: "stuck; steps 1; ticks 1",
    },
    // a function without a limit of turns goes on to the limit of ticks
    Row {
        listing: "painless 1\nfun 0 free R - -\ni 1\nloop 0\nnull\nret\nend\n",
        loops: 5,
        depth: 100,
        ticks: 10,
        room: 1000,
        left: "ticks; steps 22; ticks 10",
    },
    // and one with a limit ends there
    Row {
        listing: "painless 1\nfun 0 loop R - -\ni 1\nloop 0\nnull\nret\nend\n",
        loops: 5,
        depth: 100,
        ticks: 10,
        room: 1000,
        left: "loop; steps 12; ticks 5",
    },
    // an item of a list, from its end
    Row {
        listing: "painless 1\nfun 0 loop R - -\ni 7\nbox int\ni 9\nbox int\nlist 2\ni -1\nbox int\ngetidx\nret\nend\n",
        loops: 100,
        depth: 100,
        ticks: 100,
        room: 1000,
        left: "int 9; steps 9; ticks 1",
    },
    // an element of an array
    Row {
        listing: "painless 1\nfun 0 loop I - -\ni 1\ni 2\ni 3\narray int 3\ni 1\naload int\nret\nend\n",
        loops: 100,
        depth: 100,
        ticks: 100,
        room: 1000,
        left: "i 2; steps 7; ticks 0",
    },
    // one that was written, from its end
    Row {
        listing: "painless 1\nfun 0 loop J - R\ni 2\nnewarray long[] 1\nstore 0\nload 0\ni 1\nj 5\nastore long\nload 0\ni -1\naload long\nret\nend\n",
        loops: 100,
        depth: 100,
        ticks: 100,
        room: 1000,
        left: "j 5; steps 11; ticks 0",
    },
    // the length of an array in an array
    Row {
        listing: "painless 1\nfun 0 loop I - -\ni 2\ni 3\nnewarray int[][] 2\ni 1\naload int[]\nalen\nret\nend\n",
        loops: 100,
        depth: 100,
        ticks: 100,
        room: 1000,
        left: "i 3; steps 7; ticks 0",
    },
    // a size that is negative
    Row {
        listing: "painless 1\nfun 0 loop R - -\ni -1\nnewarray int[] 1\nret\nend\n",
        loops: 100,
        depth: 100,
        ticks: 100,
        room: 1000,
        left: "thrown; steps 2; ticks 0",
    },
    // an element of an array of another type
    Row {
        listing: "painless 1\nfun 0 loop I - -\ni 1\nnewarray long[] 1\ni 0\naload int\nret\nend\n",
        loops: 100,
        depth: 100,
        ticks: 100,
        room: 1000,
        left: "thrown; steps 4; ticks 0",
    },
    // and a value of another class that is written
    Row {
        listing: "painless 1\nfun 0 loop R - -\ni 1\nnewarray java.lang.String[] 1\ni 0\ni 5\nbox int\nastore java.lang.String\nnull\nret\nend\n",
        loops: 100,
        depth: 100,
        ticks: 100,
        room: 1000,
        left: "thrown; steps 6; ticks 0",
    },
    // whether a list has more, and the length of a map
    Row {
        listing: "painless 1\nfun 0 loop I - -\nlist 0\nhas\nret\nend\n",
        loops: 100,
        depth: 100,
        ticks: 100,
        room: 1000,
        left: "thrown; steps 2; ticks 0",
    },
    Row {
        listing: "painless 1\nfun 0 loop I - -\nmap 0\nalen\nret\nend\n",
        loops: 100,
        depth: 100,
        ticks: 100,
        room: 1000,
        left: "thrown; steps 2; ticks 0",
    },
    // int s = 0; for (def x : [1, 2]) { s += x } s
    Row {
        listing: "painless 1\nfun 0 loop I - RI\ni 1\nbox int\ni 2\nbox int\nlist 2\niter\nstore 0\ni 0\nstore 1\ngoto 16\nload 1\nload 0\nnext\nunbox int imp\nadd.i\nstore 1\nload 0\nhas\nloop 10\nload 1\nret\nend\n",
        loops: 100,
        depth: 100,
        ticks: 100,
        room: 1000,
        left: "i 3; steps 33; ticks 2",
    },
    // a value under a key, which is a name
    Row {
        listing: "painless 1\nfun 0 loop R - -\ntext \"a\"\ni 1\nbox int\ntext \"b\"\ni 2\nbox int\nmap 2\ngetname \"b\"\nret\nend\n",
        loops: 100,
        depth: 100,
        ticks: 100,
        room: 1000,
        left: "int 2; steps 9; ticks 1",
    },
    // a key that is not simple
    Row {
        listing: "painless 1\nfun 0 loop R - -\nlist 0\nnull\nmap 1\nret\nend\n",
        loops: 100,
        depth: 100,
        ticks: 100,
        room: 1000,
        left: "thrown; steps 3; ticks 0",
    },
    // an item of a list that is written at an index, and read
    Row {
        listing: "painless 1\nfun 0 loop R - R\ni 7\nbox int\nlist 1\nstore 0\nload 0\ni 0\nbox int\ni 9\nbox int\nputidx\nload 0\ni 0\nbox int\ngetidx\nret\nend\n",
        loops: 100,
        depth: 100,
        ticks: 100,
        room: 1000,
        left: "int 9; steps 15; ticks 2",
    },
    // a method by its name
    Row {
        listing: "painless 1\nfun 0 loop R - -\ntext \"abc\"\ni 1\nbox int\ni 3\nbox int\ndefcall substring 2\nret\nend\n",
        loops: 100,
        depth: 100,
        ticks: 100,
        room: 1000,
        left: "text bc; steps 7; ticks 1",
    },
    // and one that is not there
    Row {
        listing: "painless 1\nfun 0 loop R - -\ntext \"abc\"\ndefcall nothing 0\nret\nend\n",
        loops: 100,
        depth: 100,
        ticks: 100,
        room: 1000,
        left: "thrown; steps 2; ticks 0",
    },
    // operators on an Integer and a Long, two Integers, a text and an Integer, and null
    Row {
        listing: "painless 1\nfun 0 loop R - -\ni 1\nbox int\nj 2\nbox long\ndef.add\nret\nend\n",
        loops: 100,
        depth: 100,
        ticks: 100,
        room: 1000,
        left: "long 3; steps 6; ticks 0",
    },
    Row {
        listing: "painless 1\nfun 0 loop I - -\ni 1\nbox int\ni 2\nbox int\ndef.lt\nret\nend\n",
        loops: 100,
        depth: 100,
        ticks: 100,
        room: 1000,
        left: "i 1; steps 6; ticks 0",
    },
    Row {
        listing: "painless 1\nfun 0 loop R - -\ntext \"a\"\ni 2\nbox int\ndef.add\nret\nend\n",
        loops: 100,
        depth: 100,
        ticks: 100,
        room: 1000,
        left: "text a2; steps 5; ticks 0",
    },
    Row {
        listing: "painless 1\nfun 0 loop R - -\nnull\ndef.neg\nret\nend\n",
        loops: 100,
        depth: 100,
        ticks: 100,
        room: 1000,
        left: "thrown; steps 2; ticks 0",
    },
];
