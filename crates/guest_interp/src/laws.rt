// What holds of every instruction, answer and exception.
ghost use Rattle.guest_interp.specs.Ending.{OwnEnds};
ghost use Rattle.guest_interp.specs.Guarding.{CodeStays};

/// No instruction, no answer to one that exits, and no exception writes into the code.
pub fn code_stays()
    ensures law { CodeStays }
{}

/// Where an instruction, an answer or an exception stops a vCPU, its end is its own: the budget isn't
/// spent, and the communication with the host isn't ended. An answer and an exception ask nothing more.
/// So a vCPU that goes on by itself, also from an answer, never ends as terminated.
pub fn own_ends()
    ensures law { OwnEnds }
{}
