//! With what a run over a line of input starts.

ghost use Rattle.std.specs.Prelude.{◌≡◌};

use object_heap::Heap;
use object_values::{Elements, Value};

/// With what a run over a line starts.
pub struct Bound {
    /// The store, with all the room that a run has.
    pub heap: Heap,
    /// The values of the context's variables, in their order.
    pub args: Elements<Value>,
}

impl Drop for Bound {
    fn drop(self) {
        let Bound {
            heap: _heap,
            args: _args,
        } = self;
    }
}

impl Bound {
    /// The store and the values of the variables.
    pub fn into_parts(self) -> (Heap, Elements<Value>)
        ensures heap { result.0 ≡ self.heap }
        ensures args { result.1 ≡ self.args }
    {
        let Bound { heap, args } = self;
        (heap, args)
    }
}
