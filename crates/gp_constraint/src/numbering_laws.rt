ghost use Rattle.gp_constraint.specs.NumberingLaws.{PointsComeFirst};

/// That point p is executed is variable p.
pub fn points_come_first()
    ensures { PointsComeFirst }
{}
