//! The types of instances: a module's ports, each with what is asked of them again and again.
ghost use Rattle.std.specs.Prelude.{◌≡◌, IfOk, map};
ghost use Rattle.fir_flat.specs.Counts.{cut};
ghost use Rattle.fir_flat.specs.Shapes.{ports_shape, size, field_named};
ghost use Rattle.fir_flat.specs.Measures.{facing};
ghost use Rattle.fir_flat.specs.Kinds.{Finds};

use crate::fields::{FieldTable, table_of_ports};
use crate::kinds::{Place, place_in};
use crate::sizes::{facing_ports, size_of_ports};
use crate::types::Types;
use fir_ast::{Module, Port};
use std::alloc::Global;
use std::marker::Model;
use tb_base::Memory;

/// The ports of a module. Contracts see the list of them.
#[derive(Drop)]
pub(crate) struct PortRow<'a> {
    ports: &'a [Port],
    types: &'a Types<'a>,
    /// The number of ground parts, of the outputs', and of the inputs'.
    size: u64,
    along: u64,
    against: u64,
    fields: FieldTable<'a>,
}

impl<'a> Model for PortRow<'a> {
    ghost use Rattle.std.specs.Prelude.{List};
    ghost use Rattle.fir_ast.specs.declared.tree.Port.{Port};
    ghost use Rattle.fir_ast.specs.contracts.tree.Ty as ty;
    ghost use Rattle.std.specs.Coded.{codes};

    ghost Value = { List Port };

    ghost coded = { Prim.hlevel (codes, ty.the_row.coded) };

    ghost use Rattle.fir_flat.specs.PortRows.{IsPortRow};

    ghost view = { λ r. r.ports.now };

    ghost invariant = { λ r. IsPortRow r.types.now r.ports.now r.size r.along r.against r.fields };
}

impl<'a> PortRow<'a> {
    fn new(alloc: Global, types: &'a Types<'a>, ports: &'a [Port]) -> Result<PortRow<'a>, Memory>
        ensures { IfOk result (λ row. row ≡ ports.now) }
    {
        let fields = table_of_ports(alloc, types.list(), ports)?;
        Ok(PortRow {
            ports,
            types,
            size: size_of_ports(ports),
            along: facing_ports(ports, false),
            against: facing_ports(ports, true),
            fields,
        })
    }

    /// The ports.
    pub(crate) fn ports(&self) -> &'a [Port]
        ensures { result.now ≡ self.now }
    {
        self.ports
    }

    /// The field of a name. The time is that of a look-up.
    pub(crate) fn field(&self, name: &[u8]) -> Place<'a>
        ensures { Finds (field_named name.now (ports_shape self.now)) result }
    {
        place_in(self.types, &self.fields, name)
    }

    /// The number of ground parts.
    pub(crate) fn size(&self) -> u64
        ensures { result ≡ cut (size (ports_shape self.now)) }
    {
        self.size
    }

    /// The number of ground parts that go against an instance, or of those that go with it.
    pub(crate) fn facing(&self, against: bool) -> u64
        ensures { result ≡ cut (facing against (ports_shape self.now)) }
    {
        if against { self.against } else { self.along }
    }
}

/// The ports of each module.
pub(crate) fn port_rows<'a>(
    alloc: Global,
    types: &'a Types<'a>,
    modules: &'a [Module],
) -> Result<Vec<PortRow<'a>>, Memory>
    ensures { IfOk result (λ rows. rows.items ≡ map (λ m. m.ports) modules.now) }
{
    let mut rows = Vec::new(alloc);
    for home in modules {
        let row = PortRow::new(alloc, types, home.ports.items())?;
        rows.push(row)?;
    }
    Ok(rows)
}
