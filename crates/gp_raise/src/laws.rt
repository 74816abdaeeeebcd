ghost use Rattle.gp_raise.specs.Raised.{RaisedRefutes};

/// A law: a certificate that refutes a query alone refutes it, raised, over a shared list that passes.
pub fn raised_refutes()
    ensures { RaisedRefutes }
{}
