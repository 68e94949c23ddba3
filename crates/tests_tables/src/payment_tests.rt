//! What a Payment makes of C_DATA by the definitions (TPC-C 2.5.2.2), at a plain population, where every tenth customer
//! has bad credit. Nothing runs here: what is tested are clauses, which are proved.
ghost use Rattle.std.specs.Prelude.{◌≡◌, Some, pos};
ghost use Rattle.std.specs.FinMap.{get};
ghost use Rattle.customer_data.specs.Text.{put_left, first_text};
ghost use Rattle.customer_data.specs.Payments.{payment_text};
ghost use Rattle.tables.specs.Sizes.{sizes};
ghost use Rattle.tables.specs.Apply.{after};
ghost use Rattle.tables.specs.Database.{Database};
ghost use Rattle.tables.specs.declared.input.Input.TheVariants as input_variants;
ghost use Rattle.population_tables.specs.Plain.{IsPlain};
ghost use Rattle.tests_tables.specs.Payments.{payment_by, customer_of_first_district};

/// A Payment of 12.34 by customer 10, with bad credit, puts its text at the left of C_DATA.
fn bad_credit_has_the_text()
    ensures { (t : Database) → IsPlain (sizes 1 2 10 20 30 1000) t
        → get (after t (input_variants.Payment (payment_by 10))).texts (customer_of_first_district 10)
        ≡ Some (put_left (payment_text (record {
          customer = 10;
          customer_district = 1;
          customer_warehouse = 1;
          district = 1;
          warehouse = 1;
          amount = pos 1234;
        })) first_text) }
{}

/// One by customer 3, with good credit, leaves C_DATA as it was.
fn good_credit_has_none()
    ensures { (t : Database) → IsPlain (sizes 1 2 10 20 30 1000) t
        → get (after t (input_variants.Payment (payment_by 3))).texts (customer_of_first_district 3)
        ≡ Some first_text }
{}

#[test]
fn payments_by_the_definitions() {
    bad_credit_has_the_text();
    good_credit_has_none();
}
