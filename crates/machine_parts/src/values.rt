//! What members are called with.
ghost use Rattle.std.specs.Prelude.{◌≡◌, ◌<◌, [], ◌∷◌, ◌++◌, length, OnOk, IsOk, IfOk};

use object_values::Value;
use std::alloc::AllocError;
use std::marker::Model;

/// The arguments of a call in order, which contracts see as their list, with how many there is memory for.
#[derive(Drop)]
pub struct Values {
    items: Vec<Value>,
    room: usize,
}

impl Model for Values {
    ghost use Rattle.std.specs.Prelude.{◌≤◌};
    ghost use Rattle.std.specs.Vec.{vec_capacity};
    ghost use Rattle.machine_parts.specs.Rooms.{Arguments};
    ghost use Rattle.std.specs.Coded.{codes};
    ghost use Rattle.pl_types.specs.contracts.ty.Ty as ty;

    ghost Value = { Arguments };

    ghost coded = { Prim.hlevel (codes, ty.the_row.coded) };

    ghost view = { λ v. record { items = v.items.items; room = v.room } };

    ghost invariant = { λ v. v.room ≤ vec_capacity v.items };
}

impl Values {
    /// No arguments, and memory for so many: that of these, which are dropped, and what it lacks is taken.
    pub fn with_room(items: Vec<Value>, room: usize) -> Result<Values, AllocError>
        ensures empty { IfOk result (λ values. values.items ≡ []) }
        ensures room { IfOk result (λ values. values.room ≡ room) }
    {
        let mut items = items;
        items.clear();
        items.reserve(room)?;
        Ok(Values { items, room })
    }

    /// The memory of the arguments, which are dropped.
    pub fn into_memory(self) -> Vec<Value> {
        let Values {
            mut items,
            room: _room,
        } = self;
        items.clear();
        items
    }

    /// The values in their order.
    pub fn as_slice(&self) -> &[Value]
        ensures { result.now ≡ self.now.items }
    {
        self.items.as_slice()
    }

    /// Drops all arguments. The memory stays.
    pub fn clear(&mut self)
        ensures items { self.new.items ≡ [] }
        ensures room { self.new.room ≡ self.old.room }
    {
        self.items.clear();
    }

    /// One argument more, behind the others.
    pub fn push(&mut self, value: Value) -> Result<(), AllocError>
        ensures ok { OnOk result (self.new.items ≡ self.old.items ++ value ∷ []) }
        ensures room { self.new.room ≡ self.old.room }
        ensures memory { length self.old.items < self.old.room → IsOk result }
    {
        self.items.push(value)?;
        Ok(())
    }
}
