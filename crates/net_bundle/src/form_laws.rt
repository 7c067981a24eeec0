//! What the forms say: laws, each the contract of a function that does nothing.
ghost use Rattle.std.specs.Prelude.{◌≡◌, ◌↔◌, IsTrue, Ok};
ghost use Rattle.serde_json.specs.Data.{Data};
ghost use Rattle.p4_ir.specs.Loading.{rows_file_fits};
ghost use Rattle.p4_ir.specs.P4Tree.{RowsFile};
ghost use Rattle.net_bundle.specs.NetJson.{NetFile, net_data, rows_data};
ghost use Rattle.net_bundle.specs.NetForm.{file_fits, net_form};
ghost use Rattle.net_bundle.specs.RowsForm.{rows_form};

/// No member is found exactly where the value is that of a file of rows whose numbers fit, and it is that file.
pub fn rows_form_is_exact()
    ensures { (d : Data) (file : RowsFile) → (rows_form d ≡ Ok file)
        ↔ ((d ≡ rows_data file) × IsTrue (rows_file_fits file)) }
{}

/// No member is found exactly where the value is that of a file of a network that fits, and it is that file.
pub fn net_form_is_exact()
    ensures { (d : Data) (file : NetFile) → (net_form d ≡ Ok file)
        ↔ ((d ≡ net_data file) × IsTrue (file_fits file)) }
{}
