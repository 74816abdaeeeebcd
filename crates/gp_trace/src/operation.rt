ghost use Rattle.std.specs.Prelude.{◌≡◌, [], IfOk};

use gp_base::Row;
use gp_text::Name;
use std::alloc::{AllocError, Global};
use std::marker::Model;

/// An operation: its name, and the objects that it was done on, which contracts see as a pair. Where
/// there are no objects, it takes no memory of its own.
#[derive(Drop)]
pub struct Operation {
    kept: Kept,
}

/// How an operation is kept: the objects lie behind one pointer.
#[derive(Drop)]
enum Kept {
    Alone(Name),
    OnObjects(Box<Applied>),
}

/// An operation with its objects.
#[derive(Drop)]
struct Applied {
    name: Name,
    objects: Row<Name>,
}

impl Model for Operation {
    ghost use Rattle.std.specs.Prelude.{List, ℕ};

    ghost Value = { List ℕ × List (List ℕ) };

    ghost use Rattle.gp_trace.specs.Operation.{kept_operation};

    ghost view = { λ operation. kept_operation operation.kept };
}

impl Operation {
    /// The operation of this name on no object, in no memory.
    pub fn alone(name: Name) -> Operation
        ensures { result ≡ (name, []) }
    {
        Operation {
            kept: Kept::Alone(name),
        }
    }

    /// The operation of this name on these objects.
    pub fn on_objects(
        alloc: Global,
        name: Name,
        objects: Row<Name>,
    ) -> Result<Operation, AllocError>
        ensures { IfOk result (λ operation. operation ≡ (name, objects)) }
    {
        if objects.is_empty() {
            return Ok(Operation::alone(name));
        }
        let applied = Box::new(alloc, Applied { name, objects })?;
        Ok(Operation {
            kept: Kept::OnObjects(applied),
        })
    }

    /// The name of the operation.
    pub fn name(&self) -> &Name
        ensures { result.now ≡ self.now.0 }
    {
        match &self.kept {
            Kept::Alone(name) => name,
            Kept::OnObjects(applied) => &applied.name,
        }
    }

    /// The objects, in order.
    pub fn objects(&self) -> &[Name]
        ensures { result.now ≡ self.now.1 }
    {
        match &self.kept {
            Kept::Alone(_) => &[],
            Kept::OnObjects(applied) => applied.objects.as_slice(),
        }
    }
}

impl Clone for Operation {
    ghost is_clone = { λ operation copy. copy ≡ operation };

    fn clone(&self) -> Result<Operation, AllocError> {
        match &self.kept {
            Kept::Alone(name) => Ok(Operation::alone(*name)),
            Kept::OnObjects(applied) => {
                let alloc = *Box::allocator(applied);
                let objects = Vec::from_slice(alloc, applied.objects.as_slice())?;
                Operation::on_objects(alloc, applied.name, Row::from_vec(objects))
            }
        }
    }
}
