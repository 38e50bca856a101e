//! The laws, each called once: they compute nothing, and a call of each stands for it.

use crate::answer::Answer;

/// Calls each law.
pub fn answer(name: &str, answer: &mut Answer) -> bool {
    if name != "laws" {
        return false;
    }
    of_contents();
    of_configurations();
    of_names();
    answer.word("called");
    true
}

fn of_contents() {
    chunk_files::laws::encrypted_files_are_files();
    chunk_files::laws::files_are_what_they_give();
    chunk_files::laws::given_chunks_come_first();
    chunk_files::laws::made_is_a_front();
    chunk_files::laws::more_drawn_give_more();
    port_model::laws::draws_compose();
}

fn of_configurations() {
    kdf_suite::laws::digests_are_bytes();
    json_fields::laws::base64_is_exact();
    json_fields::laws::base64_is_plain();
    json_fields::laws::base64url_is_of_its_alphabet();
    cryptomator_conf::laws::made_files_give_back_their_keys();
    cryptomator_conf::laws::bytes_have_one_answer();
    cryptomator_conf::laws::passphrases_unlock_one_pair();
}

fn of_names() {
    plain_tree::laws::order_is_total();
    plain_tree::laws::prefix_comes_first();
    plain_tree::laws::children_are_ordered_by_name();
    vault_names::laws::text_has_one_name();
    vault_names::laws::texts_are_plain();
    vault_names::laws::long_names_are_plain();
    siv_mode::laws::unsealing_undoes_sealing();
    vault_names::laws::cm_text_has_one_name();
    vault_names::laws::cm_texts_are_plain();
    vault_names::laws::cm_long_names_are_plain();
    vault_names::laws::cm_folders_are_plain();
    vault_names::laws::dir_ids_are_plain();
}
