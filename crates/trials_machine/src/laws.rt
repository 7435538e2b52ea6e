//! The schema of the tests is one that modules define, and the configuration without rows is one of it.
ghost use Rattle.std.specs.Prelude.{[]};
ghost use Rattle.nc_schema.specs.Configuration.{IsConfiguration};
ghost use Rattle.nc_schema.specs.Proper.{IsProperSchema};
ghost use Rattle.nc_schema.specs.Violations.{IsValid};
ghost use Rattle.trials_machine.specs.Sample.{sample};

/// Both.
pub fn sample_is_proper()
    ensures proper { IsProperSchema sample }
    ensures empty { IsConfiguration sample [] }
    ensures valid { IsValid sample [] }
{}
