ghost use Rattle.problem.specs.Theorems.{FirmBySets, PartsFirm, OneEnd, EmptyFirm, RunsPadded, RunsWithin, RunsListed, ProblemsFit};

// The theorems on firm steps.
pub fn firm_steps_stand()
    ensures sets { FirmBySets }
    ensures parts { PartsFirm }
    ensures one { OneEnd }
    ensures empty { EmptyFirm }
{}

// The theorems on firm runs.
pub fn firm_runs_stand()
    ensures padded { RunsPadded }
    ensures within { RunsWithin }
    ensures listed { RunsListed }
    ensures fit { ProblemsFit }
{}
