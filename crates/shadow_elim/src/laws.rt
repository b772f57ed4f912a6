//! Laws of the definitions that contracts cite, for the crates above. These functions compute
//! nothing.

ghost use Rattle.shadow_elim.specs.SplitCubes.{RightLimitsKeepTrees, TreesHaveSides};
ghost use Rattle.shadow_elim.specs.ProjectionLaws.{ProjectionsKeep, ProjectionsLoseNone, ProjectionsNameNone, ProjectionsNameNoOther, ProjectionsAreTerms, ListsNamed, SumsHold, EqualRowsHold, SumsRename, SumsKeep};

/// What holds of the rows that a projection gives.
pub fn projections()
    ensures keep { ProjectionsKeep }
    ensures lose_none { ProjectionsLoseNone }
    ensures name_none { ProjectionsNameNone }
    ensures name_no_other { ProjectionsNameNoOther }
    ensures terms { ProjectionsAreTerms }
    ensures listed { ListsNamed }
{}

/// What holds of the rows of sums.
pub fn sums()
    ensures hold { SumsHold }
    ensures equal { EqualRowsHold }
    ensures rename { SumsRename }
    ensures keep { SumsKeep }
{}

/// What holds of the cubes that a limit of splits keeps.
pub fn limits()
    ensures splits { RightLimitsKeepTrees }
    ensures sides { TreesHaveSides }
{}
