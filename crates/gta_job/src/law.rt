//! The limits of jobs as numbers, which other clauses name by their constants.
ghost use Rattle.std.specs.Prelude.{◌≡◌};
ghost use Rattle.gta_job.specs.declared.job.TheConstants.{FIRST_INPUT_LIMIT, INPUT_LIMIT};
ghost use Rattle.gta_job.specs.declared.listing.TheConstants.{CANDIDATE_LIMIT, MARK_LIMIT};
ghost use Rattle.gta_job.specs.declared.size.TheConstants.{SIZE_LIMIT};

/// How many bytes an input may have, how many entries the pieces of a job, and how many candidates and marks are
/// generated at most where they are listed. It does nothing: the numbers are its contract.
pub fn job_limits()
    ensures first_input { FIRST_INPUT_LIMIT ≡ 16777216 }
    ensures input { INPUT_LIMIT ≡ 67108864 }
    ensures size { SIZE_LIMIT ≡ 67108864 }
    ensures candidates { CANDIDATE_LIMIT ≡ 65536 }
    ensures marks { MARK_LIMIT ≡ 4194304 }
{}
