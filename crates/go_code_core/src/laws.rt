//! Laws of code, with nothing to run.
ghost use Rattle.go_code_core.specs.Laws.{CodeIsWhole, JumpsStayInside, OutsideIsAlone};

/// Each jump leads to an instruction of its code, or to its end.
pub fn jumps_stay_inside()
    ensures { JumpsStayInside }
{}

/// Code of a function of which code is made looks at slots of the function alone, has no `Outside`, and ends with `Return 0`.
pub fn code_is_whole()
    ensures { CodeIsWhole }
{}

/// Of another function the code is `Outside` alone.
pub fn outside_is_alone()
    ensures { OutsideIsAlone }
{}
