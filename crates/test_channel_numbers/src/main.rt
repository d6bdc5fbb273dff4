// Runs the calls on channels until each refusal number that they can give has been given, and prints a line a call.
#![tactic(auto)]

mod order;
mod refused;

fn main() {
    test_lines::title("every refusal number");
    refused::wrong_memory();
    refused::unsound();
    refused::overrun();
    refused::lifetime();
    refused::no_such_number();
    refused::wrong_session();
    refused::outside_sizes();
    refused::no_room();
    refused::nothing_put();
    test_lines::title("the first row that applies answers");
    order::memories();
    order::states();
    order::numbers();
    order::sessions();
}
